// The rules of a well-formed receiver. Every call asks for them.
ghost use Rattle.std.specs.Prelude.{cond, ◌&&◌, List, ◌≡◌, leb, eqb};
ghost use Rattle.fragments.specs.Array.{surveyed};
ghost use Rattle.fragments.specs.declared.Fragment.{Fragment};
ghost use Rattle.laws.specs.Same.{same};
ghost use Rattle.laws.specs.Within.{Between};
ghost use Rattle.tables.specs.Quantiser.{tables_of};
ghost use Rattle.state.specs.WellFormed as Rule;

use crate::whole_flag;
use fragments::Surveyed;
use wire::{Header, TableSource};

#[tactic(auto, unfolding(crate::specs::WellFormed::picture_right))]
pub(crate) fn picture_right(picture: u32, time: u32, count: u32, header: Header) -> bool
    ensures { result ≡ Rule.picture_right picture time count header }
{
    // C's flag may hold any number, so no bool or Option
    match picture {
        0 => is_unset(time, count, header),
        1 => wire::is_lawful(header),
        _ => false,
    }
}

#[tactic(auto, unfolding(crate::specs::WellFormed::is_unset))]
fn is_unset(time: u32, count: u32, header: Header) -> bool
    ensures { result ≡ Rule.is_unset time count header }
{
    time == 0 && count == 0 && header == Header::default()
}

// Whether the fragments that a survey is of, and the places behind them, keep their rules.
pub(crate) fn fragments_right(survey: Surveyed, room: u32, end: u32, whole: u32) -> bool
    ensures { (fs behind : List Fragment) → survey ≡ surveyed fs behind → result ≡ Rule.fragments_right fs behind room end whole }
{
    let end_right = u64::from(end) == end_given(survey);
    let whole_right = whole == whole_flag(end, survey.bytes);
    are_in_place(survey, room) && survey.clear && end_right && whole_right
}

fn are_in_place(survey: Surveyed, room: u32) -> bool
    ensures { result ≡ (survey.ordered && leb survey.stop room && leb survey.marker 1) }
{
    survey.ordered && survey.stop <= u64::from(room) && survey.marker <= 1
}

// The end that the last fragment gives: its own, if it has the marker, and else 0.
fn end_given(survey: Surveyed) -> u64
    ensures { result ≡ cond (eqb survey.marker 1) survey.stop 0 }
{
    if survey.marker == 1 { survey.stop } else { 0 }
}

// Whether the tables are what the Q calls for, by whether byte 0 of the scan is held. A reserved Q was refused with the header fields,
// and is like one whose tables are brought.
#[tactic(auto, using(wire::specs::Tables::full_of_128), unfolding(crate::specs::WellFormed::tables_given))]
pub(crate) fn tables_right(from_0: bool, q: u32, tables: &[u8; 128]) -> bool
    ensures { result ≡ Rule.tables_given from_0 q tables.now }
{
    if !from_0 {
        return kept::is_blank(tables);
    }
    match wire::table_source(q) {
        TableSource::Made => are_made(q, tables),
        TableSource::KeptOrBrought | TableSource::AlwaysBrought | TableSource::Reserved => {
            wire::are_full(tables)
        }
    }
}

// Whether these are the tables made for a Q.
fn are_made(q: u32, tables: &[u8; 128]) -> bool
    requires { Between 1 99 q }
    ensures { result ≡ same tables.now (tables_of q) }
{
    let mut made = [0u8; 128];
    // not refused: this Q makes tables, and they fit
    let _ = tables::make_tables(q, &mut made);
    slices::are_same(tables, &made)
}
