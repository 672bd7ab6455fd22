// A case of the sender, `sent TYPE Q WIDTH HEIGHT INTERVAL SIZE START TIME SOURCE K OUT FROM COUNT TABLES / SCAN`: the reply, the
// length, and COUNT bytes from place FROM of an output of OUT bytes, at most 4,096, each 7 at first. TABLES and SCAN are bytes in
// hex, and may be none.
use crate::hex::read_hex;
use crate::text::next_numbers;
use crate::written::write_part;
use sender::{Picture, Stamp};
use wire::Header;

// None where the line is no such case.
pub(crate) fn run(rt: &impl Print, line: &[u8]) -> Option<()> {
    let mut n = [0u32; 13];
    let rest = next_numbers(line.strip_prefix(b"sent")?, &mut n)?;
    let slash = rest.iter().position(|byte| *byte == b'/')?;
    let (before, behind) = rest.split_at(slash);
    let mut tables = [0u8; 256];
    let tables = read_hex(before.strip_suffix(b" ")?, &mut tables)?;
    let mut scan = [0u8; 70000];
    let scan = read_hex(behind.strip_prefix(b"/")?, &mut scan)?;
    send(rt, n, tables, scan)
}

fn send(rt: &impl Print, n: [u32; 13], tables: &[u8], scan: &[u8]) -> Option<()> {
    let [
        kind,
        q,
        width,
        height,
        interval,
        size,
        start,
        time,
        source,
        k,
        length,
        from,
        count,
    ] = n;
    let header = Header {
        kind,
        q,
        width,
        height,
        interval,
    };
    let stamp = Stamp {
        start: u16::try_from(start).ok()?,
        time,
        source,
    };
    let picture = Picture {
        header,
        tables,
        scan,
    };
    let mut out = [7u8; 4096];
    let out = out.get_mut(..length as usize)?;
    let written = sender::packet(picture, size, stamp, k, out);
    write_part(rt, written, out, from, count)
}
