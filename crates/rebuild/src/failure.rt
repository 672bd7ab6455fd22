// What the system refused, for people to read.
ghost use Rattle.std.specs.Prelude.{◌≤◌, length};

use std::io;
use std::io::Write;

// Says what failed, and why in the system's own words.
pub(crate) fn say(errors: &impl Print, what: &[u8], error: &io::Error) {
    let mut text = [0u8; 320];
    let mut rest = text.as_mut_slice();
    let _ = write!(rest, "{error}");
    let _ = errors.write_all(what);
    let _ = errors.write_all(b": ");
    let _ = errors.write_all(reason(&text));
    let _ = errors.write_all(b"\n");
}

// The reason in an error's text, in front of the zeros: `Display` puts the error's number behind it.
fn reason(text: &[u8]) -> &[u8]
    ensures { length result.now ≤ length text.now }
{
    let written = text.iter().position(|byte| *byte == 0);
    let text = &text[..written.unwrap_or(text.len())];
    let reason = text
        .windows(11)
        .position(|part| part == b" (os error ".as_slice());
    &text[..reason.unwrap_or(text.len())]
}
