// The file of the picture that a history's receiver holds; the comments of `stdin` say what the form gives.
use crate::text::reads_as;
use crate::written::write_part;
use state::Receiver;

// None where the line does not ask for a file, or for bytes that its output has not.
pub(crate) fn run(rt: &impl Print, line: &[u8], receiver: &Receiver, area: &[u8]) -> Option<()> {
    let mut n = [0u32; 3];
    reads_as(line, b"build", &mut n)?;
    write_file(rt, n, receiver, area)
}

// By itself: an array is set where its function begins, and a line that asks for no file is not to pay for this one.
fn write_file(rt: &impl Print, n: [u32; 3], receiver: &Receiver, area: &[u8]) -> Option<()> {
    let mut out = [7u8; 70000];
    let [length, from, count] = n;
    let out = out.get_mut(..length as usize)?;
    let written = builder::build(receiver, area, out);
    write_part(rt, written, out, from, count)
}
