// A case of table making, `tables Q LENGTH FROM COUNT`: the reply, the length, and COUNT bytes from place FROM of an
// output of LENGTH bytes, at most 4,096, each 7 at first.
use crate::text::reads_as;
use crate::written::write_part;

// None where the line is no such case.
pub(crate) fn run(rt: &impl Print, line: &[u8]) -> Option<()> {
    let mut n = [0u32; 4];
    reads_as(line, b"tables", &mut n)?;
    let [q, length, from, count] = n;
    let mut out = [7u8; 4096];
    let out = out.get_mut(..length as usize)?;
    let written = tables::make_tables(q, out);
    write_part(rt, written, out, from, count)
}
