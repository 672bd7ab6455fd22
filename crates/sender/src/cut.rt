// Where the scan is cut for packet k, by arithmetic. Every packet holds the same number of scan bytes, except the first, whose table
// header takes some of their place: so packet k begins at k times that number, less what the table header takes.
ghost use Rattle.std.specs.Prelude.{◌≡◌, ◌+◌, ◌-◌, ◌≤◌, length};
ghost use Rattle.fragments.specs.Fragments.{fragment_at};
ghost use Rattle.sender.specs.Sending.{Accepted};
ghost use Rattle.sender.specs.Cuts.{cuts};
ghost use Rattle.sender.specs.Packet.{not_by_intervals, restart_header};
ghost use Rattle.sender.specs.Picture.{contents};

use crate::Picture;
use crate::headers::{RESTART_AT, restart_length};
use fragments::Fragment;

impl Picture<'_> {
    pub(crate) fn cut_at(self, size: u32, k: u32) -> Fragment
        requires { Accepted (contents self) size k }
        ensures { result ≡ fragment_at (cuts size (contents self.entry)) k }
    {
        let capacity = self.capacity_behind(size);
        let taken = self.tables_length(0);
        let begin = (k as usize * capacity).saturating_sub(taken);
        let end = (k as usize + 1) * capacity - taken;
        if self.scan.len() <= end {
            cut(begin, self.scan.len(), 1)
        } else {
            cut(begin, end, 0)
        }
    }

    // The scan bytes that a packet behind the first holds.
    #[tactic(auto, using(crate::specs::Packet::restart_small))]
    pub(crate) fn capacity_behind(self, size: u32) -> usize
        requires { 24 ≤ size }
        ensures { result ≡ size - (20 + length (restart_header self.entry.header not_by_intervals)) }
    {
        size as usize - RESTART_AT - restart_length(self.header)
    }
}

fn cut(begin: usize, end: usize, marker: u32) -> Fragment
    requires { (begin ≤ end) × (end ≤ 65536) }
    ensures { result ≡ record { offset = begin; length = end - begin; marker = marker } }
{
    Fragment {
        offset: begin as u32,
        length: (end - begin) as u32,
        marker,
    }
}
