// What a call answers that writes into an output, and what it leaves there.
use crate::text::{part, write_bytes, write_number};
use replies::{Refusal, Written};

// The reply, the length, and `count` bytes from place `from` of the output; none where the output has not so many.
pub(crate) fn write_part(
    rt: &impl Print,
    outcome: Result<u32, Refusal>,
    out: &[u8],
    from: u32,
    count: u32,
) -> Option<()> {
    let bytes = part(out, from, count)?;
    let written = Written::from(outcome);
    write_number(rt, written.reply);
    write_number(rt, written.length);
    write_bytes(rt, bytes);
    Some(())
}
