// The table header and the tables behind it, in the first packet of a picture (RFC 2435 section 3.1.8).
ghost use Rattle.std.specs.Prelude.{◌≡◌, length};
ghost use Rattle.replies.specs.Checks.{judged};
ghost use Rattle.wire.specs.Reading.{table_checks};
ghost use Rattle.wire.specs.Main.{main};
ghost use Rattle.wire.specs.TableSource.{is_in_band, table_source};
ghost use Rattle.wire.specs.Tables as Tables;

use crate::field::{byte_at, number_at};
use crate::jpeg::q_of;
use crate::restart::restart_end;
use crate::{TableSource, table_source};
use replies::Refusal;

pub(crate) fn judge_tables(payload: &[u8]) -> Result<(), Refusal>
    ensures { result ≡ judged (table_checks payload.now) }
{
    let at = tables_at(payload);
    let end = at + tables_length(payload) as usize;
    if payload.len() < end {
        return Err(Refusal::TooShort);
    }
    if rule_broken(payload, &payload[at..end]) {
        return Err(Refusal::TableRule);
    }
    if payload.len() == end {
        return Err(Refusal::NoScan);
    }
    Ok(())
}

fn rule_broken(payload: &[u8], tables: &[u8]) -> bool
    requires tables_value { tables.now ≡ Tables.tables payload.now }
    requires tables_len { length tables.now ≡ Tables.tables_length payload.now }
    ensures { result ≡ Tables.table_rule_broken payload.now }
{
    if !has_table_header(payload) {
        return false;
    }
    if byte_at(payload, restart_end(payload) + 1) % 4 != 0 {
        return true;
    }
    match tables.len() {
        0 => always_brought(payload),
        128 => tables.contains(&0),
        _ => true,
    }
}

fn has_table_header(payload: &[u8]) -> bool
    ensures { result ≡ Tables.has_table_header payload.now }
{
    number_at::<3>(payload, 1) == 0 && is_in_band(payload)
}

fn always_brought(payload: &[u8]) -> bool
    ensures { result ≡ Tables.always_brought payload.now }
{
    table_source(q_of(payload)) == TableSource::AlwaysBrought
}

fn is_in_band(payload: &[u8]) -> bool
    ensures { result ≡ is_in_band (table_source (main payload.now).q) }
{
    matches!(
        table_source(q_of(payload)),
        TableSource::KeptOrBrought | TableSource::AlwaysBrought
    )
}

// How many bytes of tables the header says.
pub(crate) fn tables_length(payload: &[u8]) -> u32
    ensures { result ≡ Tables.tables_length payload.now }
{
    if has_table_header(payload) {
        number_at::<2>(payload, restart_end(payload) + 2)
    } else {
        0
    }
}

pub(crate) fn tables_at(payload: &[u8]) -> usize
    ensures { result ≡ Tables.tables_at payload.now }
{
    if has_table_header(payload) {
        restart_end(payload) + 4
    } else {
        restart_end(payload)
    }
}
