// The JPEG headers at the front of a payload (RFC 2435).
ghost use Rattle.std.specs.Prelude.{◌≡◌};
ghost use Rattle.replies.specs.Checks.{judged};
ghost use Rattle.wire.specs.Kind.{is_not_carried, restarts_of};
ghost use Rattle.wire.specs.Main.{main};
ghost use Rattle.wire.specs.Reading.{main_checks, jpeg_checks, header_of};
ghost use Rattle.wire.specs.TableSource.{is_reserved, table_source};

use crate::field::byte_at;
use crate::restart::{interval, judge_restart};
use crate::table_header::judge_tables;
use crate::{Header, Restarts, TableSource, restarts_of, table_source};
use replies::Refusal;

pub(crate) fn judge(payload: &[u8]) -> Result<(), Refusal>
    ensures { result ≡ judged (jpeg_checks payload.now) }
{
    judge_main(payload)?;
    judge_restart(payload)?;
    judge_tables(payload)
}

fn judge_main(payload: &[u8]) -> Result<(), Refusal>
    ensures { result ≡ judged (main_checks payload.now) }
{
    if payload.len() < 8 {
        return Err(Refusal::TooShort);
    }
    // what is asked of the fields first, so that the checks stand in their order below
    let other_type = has_other_type(payload);
    let type_specific = byte_at(payload, 0) != 0;
    let reserved_q = has_reserved_q(payload);
    if other_type {
        return Err(Refusal::OtherType);
    }
    if type_specific {
        return Err(Refusal::OtherTypeSpecific);
    }
    if reserved_q {
        return Err(Refusal::QReserved);
    }
    if byte_at(payload, 6) == 0 || byte_at(payload, 7) == 0 {
        return Err(Refusal::SideZero);
    }
    Ok(())
}

fn has_other_type(payload: &[u8]) -> bool
    ensures { result ≡ is_not_carried (restarts_of (main payload.now).kind) }
{
    restarts_of(kind_of(payload)) == Restarts::NotCarried
}

fn has_reserved_q(payload: &[u8]) -> bool
    ensures { result ≡ is_reserved (table_source (main payload.now).q) }
{
    table_source(q_of(payload)) == TableSource::Reserved
}

pub(crate) fn kind_of(payload: &[u8]) -> u32
    ensures { result ≡ (main payload.now).kind }
{
    byte_at(payload, 4) as u32
}

pub(crate) fn q_of(payload: &[u8]) -> u32
    ensures { result ≡ (main payload.now).q }
{
    byte_at(payload, 5) as u32
}

pub(crate) fn header(payload: &[u8]) -> Header
    ensures { result ≡ header_of payload.now }
{
    Header {
        kind: kind_of(payload),
        q: q_of(payload),
        width: byte_at(payload, 6) as u32,
        height: byte_at(payload, 7) as u32,
        interval: interval(payload),
    }
}
