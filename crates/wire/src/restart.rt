// The restart header, behind the main header of types with restart intervals (RFC 2435 section 3.1.7).
ghost use Rattle.std.specs.Prelude.{◌≡◌};
ghost use Rattle.replies.specs.Checks.{judged};
ghost use Rattle.wire.specs.Reading.{restart_checks};
ghost use Rattle.wire.specs.Restart as Restart;

use crate::field::number_at;
use crate::jpeg::kind_of;
use crate::{Restarts, restarts_of};
use replies::Refusal;

pub(crate) fn judge_restart(payload: &[u8]) -> Result<(), Refusal>
    ensures { result ≡ judged (restart_checks payload.now) }
{
    if payload.len() < restart_end(payload) {
        return Err(Refusal::TooShort);
    }
    if has_restart(payload) && interval(payload) == 0 {
        return Err(Refusal::IntervalZero);
    }
    Ok(())
}

fn has_restart(payload: &[u8]) -> bool
    ensures { result ≡ Restart.has_restart payload.now }
{
    restarts_of(kind_of(payload)) == Restarts::Present
}

pub(crate) fn interval(payload: &[u8]) -> u32
    ensures { result ≡ Restart.interval payload.now }
{
    if has_restart(payload) {
        number_at::<2>(payload, 8)
    } else {
        0
    }
}

pub(crate) fn restart_end(payload: &[u8]) -> usize
    ensures { result ≡ Restart.restart_end payload.now }
{
    if has_restart(payload) { 12 } else { 8 }
}
