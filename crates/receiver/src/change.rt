// The receiver as an accepted packet leaves it.
ghost use Rattle.std.specs.Prelude.{◌≡◌, ◌+◌, ◌^◌, ◌<◌, ◌≤◌, true, take, drop, if◌then◌else◌, nat_eq, not, ◌&&◌, ◌==◌, slice_index};
ghost use Rattle.fragments.specs.Array.{is_nothing, no_fragments, padded};
ghost use Rattle.fragments.specs.Clash.{is_marked};
ghost use Rattle.fragments.specs.Fragments.{stop};
ghost use Rattle.fragments.specs.Held.{total};
ghost use Rattle.kept.specs.Kept.{blank};
ghost use Rattle.laws.specs.All.{all};
ghost use Rattle.laws.specs.Insert.{insert_at};
ghost use Rattle.state.specs.Receiver.{held_fragments};
ghost use Rattle.wire.specs.TableSource.{is_made, table_source};
ghost use Rattle.receiver.specs.FirstPacket as First;
ghost use Rattle.receiver.specs.Known.{Admitted};
ghost use Rattle.receiver.specs.Picture.{picture_for};
ghost use Rattle.receiver.specs.Step as Step;

use crate::first_packet::{are_made, given, keeps};
use crate::judge::{Arrival, fragment_of};
use fragments::Fragment;
use kept::Kept;
use state::Receiver;

// Puts the packet's fragment at its place in the picture, which then has `held` scan bytes, and sets the tables that the packet gives it.
pub(crate) fn take(receiver: &mut Receiver, arrival: Arrival, at: usize, held: u32)
    requires admitted { Admitted receiver.old arrival at }
    requires held_with_it { held ≡ total (held_fragments (picture_for receiver.old arrival.said)) + arrival.said.scan.length }
    ensures { receiver.new ≡ Step.taken (picture_for receiver.old arrival.entry.said) arrival.entry.packet.now arrival.entry.said }
{
    let Arrival { said, picture, .. } = arrival;
    let f = fragment_of(said);
    let count = picture.count + 1;
    let end = end_with(picture.end, f);
    set_fragments(&mut receiver.fragments, picture.begun, picture.count, at, f);
    set_tables(&mut receiver.tables, &receiver.kept, receiver.q, arrival);
    set_kept(&mut receiver.kept, arrival);
    receiver.picture = 1;
    receiver.time = picture.time;
    receiver.kind = picture.header.kind;
    receiver.q = picture.header.q;
    receiver.width = picture.header.width;
    receiver.height = picture.header.height;
    receiver.interval = picture.header.interval;
    receiver.end = end;
    receiver.whole = state::whole_flag(end, held as u64);
    receiver.fragment_count = count;
}

// The picture's tables: those that a first packet gives, where they are not there already; none where it begins; else as they were.
#[tactic(auto, unfolding(kept::specs::Kept::blank))]
fn set_tables(tables: &mut [u8; 128], kept: &Kept, q: u32, arrival: Arrival)
    ensures { tables.new ≡ (if nat_eq arrival.entry.said.offset 0
        then (if is_made (table_source arrival.entry.said.header.q) && q == arrival.entry.said.header.q && not (slice_index tables.old 0 == 0) then tables.old else First.given kept.now arrival.entry.packet.now arrival.entry.said)
        else (if arrival.entry.picture.begun then blank else tables.old)) }
{
    if arrival.said.offset == 0 {
        if !are_made(q, tables, arrival.said.header.q) {
            *tables = given(kept, arrival);
        }
    } else if arrival.picture.begun {
        *tables = [0; 128];
    }
}

// The store: tables that come and are kept, and else as it was.
#[tactic(auto, using(crate::proofs::Taking::store_kept, crate::proofs::Taking::store_stays))]
fn set_kept(kept: &mut Kept, arrival: Arrival)
    ensures { kept.new ≡ First.kept_after kept.old arrival.entry.packet.now arrival.entry.said }
{
    let said = arrival.said;
    if keeps(said) {
        *kept = kept::keep(kept, said.header.q, wire::tables(arrival.packet, said));
    }
}

// The end with one more fragment: its own, if it has the marker, and else what it was.
fn end_with(end: u32, f: Fragment) -> u32
    requires { stop f < 2 ^ 32 }
    ensures { result ≡ (if is_marked f then stop f else end) }
{
    if f.marker == 1 {
        f.offset + f.length
    } else {
        end
    }
}

// The fragments with one more; a picture that the packet begins had none.
fn set_fragments(fragments: &mut [Fragment; 64], begun: bool, count: u32, at: usize, f: Fragment)
    requires room_for_one { (count < 64) × (at ≤ count) }
    requires unused_behind { all is_nothing (drop count (if begun then no_fragments else fragments.old)) ≡ true }
    ensures { fragments.new ≡ padded (insert_at at f (take count (if begun then no_fragments else fragments.old))) }
{
    if begun {
        *fragments = fragments::none();
    }
    fragments::insert(fragments, count, at, f);
}
