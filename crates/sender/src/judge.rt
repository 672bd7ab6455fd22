// Whether packet k of a picture can be sent.
ghost use Rattle.std.specs.Prelude.{◌≡◌, length};
ghost use Rattle.replies.specs.Checks.{judged};
ghost use Rattle.wire.specs.TableSource.{table_source};
ghost use Rattle.sender.specs.Fit.{Fit, picture_checks, tables_fit};
ghost use Rattle.sender.specs.Cuts.{cuts};
ghost use Rattle.sender.specs.Picture.{contents};
ghost use Rattle.sender.specs.Sending.{checks, cut_checks};

use crate::Picture;
use replies::Refusal;
use wire::TableSource;

impl Picture<'_> {
    pub(crate) fn judge(self, size: u32, k: u32) -> Result<(), Refusal>
        ensures { result ≡ judged (checks (contents self.entry) size k) }
    {
        self.judge_limits(size)?;
        self.judge_cuts(size, k)
    }

    #[tactic(auto, unfolding(laws::specs::Within::within, replies::specs::Checks::judged))]
    fn judge_limits(self, size: u32) -> Result<(), Refusal>
        ensures { result ≡ judged (picture_checks (contents self.entry) size) }
    {
        if !wire::is_lawful(self.header) {
            return Err(Refusal::Parameters);
        }
        if !(1..=65536).contains(&self.scan.len()) {
            return Err(Refusal::ScanLength);
        }
        if !(192..=1472).contains(&size) {
            return Err(Refusal::PacketSize);
        }
        if !self.tables_fit() {
            return Err(Refusal::SentTables);
        }
        Ok(())
    }

    fn tables_fit(self) -> bool
        ensures { result ≡ tables_fit (table_source self.entry.header.q) self.entry.tables.now }
    {
        let bare = self.tables.is_empty();
        let full = wire::are_full(self.tables);
        match wire::table_source(self.header.q) {
            TableSource::Made => bare,
            TableSource::KeptOrBrought => bare || full,
            TableSource::AlwaysBrought => full,
            TableSource::Reserved => false,
        }
    }

    // There are more than n packets where the scan, and what the table header takes of the first packet, are more than n packets
    // hold.
    #[tactic(auto, using(crate::specs::Packet::tables_small))]
    fn judge_cuts(self, size: u32, k: u32) -> Result<(), Refusal>
        requires { Fit (contents self) size }
        ensures { result ≡ judged (cut_checks (length (cuts size (contents self.entry))) k) }
    {
        let capacity = self.capacity_behind(size);
        let all = self.tables_length(0) + self.scan.len();
        if 64 * capacity < all {
            return Err(Refusal::Over64Packets);
        }
        if all <= k as usize * capacity {
            return Err(Refusal::IndexTooLarge);
        }
        Ok(())
    }
}
