// The verdict on a packet that has been read, from its time stamp to its tables. It decides everything: nothing is changed before it.
ghost use Rattle.std.specs.Prelude.{◌≡◌, ◌^◌, ◌<◌, ◌≤◌, ◌&&◌, ◌||◌, length, take, nat_lt};
ghost use Rattle.fragments.specs.Array.{Places};
ghost use Rattle.fragments.specs.Clash.{near_clashes};
ghost use Rattle.fragments.specs.Fragments.{bytes_of};
ghost use Rattle.fragments.specs.Order as Order;
ghost use Rattle.fragments.specs.Order.{InOrder};
ghost use Rattle.laws.specs.Same.{same};
ghost use Rattle.replies.specs.Checks.{judged};
ghost use Rattle.wire.specs.Reading.{scan_in};
ghost use Rattle.receiver.specs.Known.{Known, placed_by};
ghost use Rattle.receiver.specs.Picture.{picture_for};
ghost use Rattle.receiver.specs.Time.{is_behind};
ghost use Rattle.receiver.specs.Verdict as Spec;

use crate::first_packet::is_bare;
use crate::picture::Numbers;
use crate::time::is_behind;
use fragments::{Fragment, Placed};
use replies::Refusal;
use state::Receiver;
use wire::Packet;

// A packet, what it says, and the picture that it is for.
#[derive(Clone, Copy)]
pub(crate) struct Arrival<'a> {
    pub(crate) packet: &'a [u8],
    pub(crate) said: Packet,
    pub(crate) picture: Numbers,
}

impl Arrival<'_> {
    // Why the packet changes nothing, or the place at which its fragment goes.
    pub(crate) fn judge(self, receiver: &Receiver, area: &[u8]) -> Result<usize, Refusal>
        requires { Known receiver.now self }
        ensures { result ≡ placed_by receiver.now self.entry.said (Spec.verdict receiver.now area.now self.entry.packet.now self.entry.said) }
    {
        if self.is_past() {
            return Err(Refusal::Past);
        }
        if self.picture.header != self.said.header {
            return Err(Refusal::Unlike);
        }
        if (receiver.room as u64) < self.said.offset as u64 + self.said.scan.length as u64 {
            return Err(Refusal::Beyond);
        }
        self.judge_place(receiver, area)
    }

    fn is_past(self) -> bool
        ensures { result ≡ (is_behind self.entry.said.time self.entry.picture.time || self.entry.picture.whole) }
    {
        is_behind(self.said.time, self.picture.time) || self.picture.whole
    }

    // The checks against the fragments held, by where the packet's goes and what stands in front of it.
    fn judge_place(self, receiver: &Receiver, area: &[u8]) -> Result<usize, Refusal>
        requires { Known receiver.now self }
        ensures { result ≡ placed_by receiver.now self.entry.said (judged (Spec.place_checks (picture_for receiver.now self.entry.said) area.now self.entry.packet.now self.entry.said)) }
    {
        let f = fragment_of(self.said);
        let placed = place_of(
            &receiver.fragments,
            self.picture.count,
            self.picture.reach,
            f,
        );
        if self.is_again(placed.same, &receiver.tables, area) {
            return Err(Refusal::Again);
        }
        if clashes(f, placed, self.picture.end, self.picture.count) {
            return Err(Refusal::Clash);
        }
        if 64 <= self.picture.count {
            return Err(Refusal::Full);
        }
        if is_bare(&receiver.kept, self.said) {
            return Err(Refusal::Bare);
        }
        Ok(placed.at)
    }

    // Whether it is an exact repeat: `alike` tells that its offset, length and marker are those of one held.
    fn is_again(self, alike: bool, tables: &[u8; 128], area: &[u8]) -> bool
        ensures { result ≡ (alike && Spec.same_contents area.now self.entry.packet.now self.entry.said tables.now) }
    {
        alike && self.has_bytes(area) && self.agrees(tables)
    }

    // Whether the bytes that it carries are those that the area has there.
    fn has_bytes(self, area: &[u8]) -> bool
        ensures { result ≡ same (bytes_of area.now (Spec.fragment_of self.entry.said)) (scan_in self.entry.packet.now self.entry.said) }
    {
        let held = slices::part(area, self.said.offset as usize, self.said.scan.length);
        slices::are_same(held, wire::scan(self.packet, self.said))
    }

    // Whether any tables that it brings are those of the picture.
    fn agrees(self, tables: &[u8; 128]) -> bool
        ensures { result ≡ Spec.agrees self.entry.packet.now self.entry.said tables.now }
    {
        self.said.tables.length == 0
            || slices::are_same(&wire::tables(self.packet, self.said), tables)
    }
}

// Where a fragment goes among the first `count`. One that begins where the last of them ends, or later, goes behind them: then the array
// is not looked at, and so it is with packets that come in order.
#[tactic(auto, using(fragments::specs::Array::placed_behind))]
fn place_of(fragments: &[Fragment; 64], count: u32, reach: u32, f: Fragment) -> Placed
    requires in_order { InOrder 0 (take count fragments.now) × (length (take count fragments.now) ≡ count) }
    requires reach_of_these { (reach ≡ Order.reach (take count fragments.now)) × (1 ≤ f.length) }
    ensures { Places fragments.now count f result }
{
    if reach <= f.offset {
        return Placed {
            at: count as usize,
            shares: false,
            same: false,
        };
    }
    fragments::place(fragments, count, f)
}

// The part of the scan that a packet carries.
pub(crate) fn fragment_of(said: Packet) -> Fragment
    requires { said.scan.length < 2 ^ 32 }
    ensures { result ≡ Spec.fragment_of said }
{
    Fragment {
        offset: said.offset,
        length: said.scan.length as u32,
        marker: said.marker,
    }
}

// Whether a fragment contradicts those held, by what the one in front of its place, the end and the place tell. Where no byte is
// shared, a fragment behind its place is what ends behind it.
#[tactic(auto, unfolding(fragments::specs::Clash::near_clashes))]
fn clashes(f: Fragment, placed: Placed, end: u32, count: u32) -> bool
    ensures { result ≡ near_clashes f placed.shares end placed.at count }
{
    let stop = u64::from(f.offset) + u64::from(f.length);
    placed.shares
        || (end != 0 && u64::from(end) < stop)
        || (f.marker == 1 && rules_out_marker(placed.at, end, count))
}

// Whether the end is known, or a fragment stands behind a place.
fn rules_out_marker(at: usize, end: u32, count: u32) -> bool
    ensures { result ≡ (nat_lt 0 end || nat_lt at count) }
{
    end != 0 || at < count as usize
}
