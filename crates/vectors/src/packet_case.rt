// Cases of the packet reader. Each gives the number of a refusal; or 0 and then, for `packet SOURCE BYTES` what the packet says,
// for `brought SOURCE BYTES` its 128 table bytes, for `scan SOURCE BYTES` its scan data.
use crate::hex::read_hex;
use crate::text::{next_number, write_bytes, write_number};
use wire::Packet;

// None where the line is no such case.
pub(crate) fn run(rt: &impl Print, line: &[u8]) -> Option<()> {
    if let Some(rest) = line.strip_prefix(b"packet") {
        return read(rt, rest, |_, said| write_fields(rt, said));
    }
    if let Some(rest) = line.strip_prefix(b"brought") {
        return read(rt, rest, |packet, said| {
            write_bytes(rt, &wire::tables(packet, said));
        });
    }
    read(rt, line.strip_prefix(b"scan")?, |packet, said| {
        write_bytes(rt, wire::scan(packet, said));
    })
}

fn read<Show: Fn(&[u8], Packet)>(rt: &impl Print, line: &[u8], show: Show) -> Option<()>
    requires { Show.IsAlwaysCallable show }
{
    let (source, bytes) = next_number(line)?;
    read_from(rt, source, bytes, show)
}

// Shows of the packet what the case asks for, where the packet is read. By itself: an array is set where its function begins, and a line
// without a source is not to pay for this one.
fn read_from<Show: Fn(&[u8], Packet)>(
    rt: &impl Print,
    source: u32,
    bytes: &[u8],
    show: Show,
) -> Option<()>
    requires { Show.IsAlwaysCallable show }
{
    let mut buffer = [0u8; 65536];
    let packet = read_hex(bytes, &mut buffer)?;
    match wire::read(source, packet) {
        Err(refusal) => write_number(rt, refusal.number()),
        Ok(said) => {
            write_number(rt, 0);
            show(packet, said);
        }
    }
    Some(())
}

fn write_fields(rt: &impl Print, said: Packet) {
    let header = said.header;
    for field in [
        said.marker,
        said.time,
        said.offset,
        header.kind,
        header.q,
        header.width,
        header.height,
        header.interval,
    ] {
        write_number(rt, field);
    }
    let tables = said.tables;
    let (brought, at) = if tables.length == 0 {
        (0, 0)
    } else {
        (1, tables.at)
    };
    for place in [brought, at, said.scan.at, said.scan.length] {
        write_number(rt, place);
    }
}
