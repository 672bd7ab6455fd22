// What a first packet, the one at offset 0, means for its picture's tables and for those kept.
ghost use Rattle.std.specs.Prelude.{◌≡◌, not, ◌&&◌, if◌then◌else◌, ◌==◌, slice_index};
ghost use Rattle.kept.specs.Kept.{find, is_keepable};
ghost use Rattle.laws.specs.Within.{Between};
ghost use Rattle.tables.specs.Quantiser.{tables_of};
ghost use Rattle.wire.specs.Reading.{tables_in};
ghost use Rattle.wire.specs.TableSource.{is_made, table_source};
ghost use Rattle.receiver.specs.FirstPacket as First;

use crate::judge::Arrival;
use kept::Kept;
use wire::{Packet, TableSource};

// Whether it brings no tables, and none are kept for its Q.
#[tactic(auto, unfolding(crate::specs::FirstPacket::is_bare))]
pub(crate) fn is_bare(kept: &Kept, said: Packet) -> bool
    ensures { result ≡ First.is_bare kept.now said }
{
    said.offset == 0
        && wire::table_source(said.header.q) == TableSource::KeptOrBrought
        && said.tables.length == 0
        && !kept::has(kept, said.header.q)
}

// The tables that a first packet gives its picture.
#[tactic(auto, unfolding(crate::specs::FirstPacket::given))]
pub(crate) fn given(kept: &Kept, arrival: Arrival) -> [u8; 128]
    ensures { result ≡ First.given kept.now arrival.entry.packet.now arrival.entry.said }
{
    match wire::table_source(arrival.said.header.q) {
        TableSource::Made => made(arrival.said.header.q),
        TableSource::KeptOrBrought => brought_or_kept(kept, arrival),
        TableSource::AlwaysBrought | TableSource::Reserved => {
            wire::tables(arrival.packet, arrival.said)
        }
    }
}

// By itself here and in `state::check::are_made`: one for both would be another public function.
fn made(q: u32) -> [u8; 128]
    requires { Between 1 99 q }
    ensures { result ≡ tables_of q }
{
    let mut tables = [0u8; 128];
    // not refused: this Q makes tables, and they fit
    let _ = tables::make_tables(q, &mut tables);
    tables
}

fn brought_or_kept(kept: &Kept, arrival: Arrival) -> [u8; 128]
    ensures { result ≡ (if First.brings arrival.entry.said then tables_in arrival.entry.packet.now arrival.entry.said else find kept.now arrival.entry.said.header.q) }
{
    if arrival.said.tables.length == 0 {
        kept::find(kept, arrival.said.header.q)
    } else {
        wire::tables(arrival.packet, arrival.said)
    }
}

// Whether the tables held for a Q are those that a Q makes: it is the same Q, and they are known, so that none of them is 0.
pub(crate) fn are_made(held: u32, tables: &[u8; 128], q: u32) -> bool
    ensures { result ≡ (is_made (table_source q) && held == q && not (slice_index tables.now 0 == 0)) }
{
    wire::table_source(q) == TableSource::Made && held == q && tables[0] != 0
}

// Whether a packet brings tables that are kept.
pub(crate) fn keeps(said: Packet) -> bool
    ensures { result ≡ (is_keepable said.header.q && First.brings said) }
{
    let q = said.header.q;
    wire::table_source(q) == TableSource::KeptOrBrought && said.tables.length != 0
}
