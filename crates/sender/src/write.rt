// A packet, written front to back.
ghost use Rattle.std.specs.Prelude.{◌≡◌, ◌+◌, ◌^◌, ◌<◌, ◌≤◌, length};
ghost use Rattle.fragments.specs.Fragments.{bytes_of, stop};
ghost use Rattle.laws.specs.Put.{Puts};
ghost use Rattle.laws.specs.Spelled.{spelled};
ghost use Rattle.wire.specs.Lawful.{Lawful};
ghost use Rattle.sender.specs.Packet as Packet;
ghost use Rattle.sender.specs.Picture.{contents};

use crate::headers::{RESTART_AT, has_restart, has_table_header, restart_length};
use crate::{Picture, Stamp};
use fragments::Fragment;
use wire::Header;

#[tactic(auto, using(crate::specs::Packet::length_headers, crate::specs::Packet::restart_small))]
pub(crate) fn put_packet(stamp: Stamp, picture: Picture, k: u32, cut: Fragment, out: &mut [u8])
    requires lawful { Lawful picture.header × (length picture.tables.now ≤ 128) × (k < 2 ^ 16) }
    requires marker_bound { (cut.marker ≤ 1) × (cut.offset < 2 ^ 24) × (stop cut ≤ length picture.scan.now) }
    requires cut_in_bounds { Packet.scan_begins (contents picture) cut + cut.length ≤ length out.old }
    ensures { Puts out.old 0 (Packet.packet stamp (contents picture.entry) k cut) out.new }
{
    put_rtp(stamp, k, cut.marker, out);
    put_main(picture.header, cut.offset, out);
    put_restart(picture.header, out);
    put_tables(
        picture,
        cut.offset,
        RESTART_AT + restart_length(picture.header),
        out,
    );
    put_bytes(
        scan_of(picture.scan, cut),
        picture.headers_length(cut.offset),
        out,
    );
}

// The part of a scan that a packet carries.
fn scan_of(scan: &[u8], cut: Fragment) -> &[u8]
    requires { stop cut ≤ length scan.now }
    ensures { result.now ≡ bytes_of scan.now cut }
{
    &scan[cut.offset as usize..][..cut.length as usize]
}

// Version 2, no padding, no extension, no CSRC; payload type 26.
fn put_rtp(stamp: Stamp, k: u32, marker: u32, out: &mut [u8])
    requires { (k < 2 ^ 16) × (marker ≤ 1) × (12 ≤ length out.old) }
    ensures { Puts out.old 0 (Packet.rtp_header stamp k marker) out.new }
{
    put_bytes(&[0x80, (marker * 128 + 26) as u8], 0, out);
    put_number::<2>(u32::from(stamp.start.wrapping_add(k as u16)), 2, out);
    put_number::<4>(stamp.time, 4, out);
    put_number::<4>(stamp.source, 8, out);
}

// Type-specific 0, the offset, and the fields that every packet of a picture has.
#[tactic(auto, using(wire::specs::Lawful::kind_small, wire::specs::Lawful::q_small))]
fn put_main(header: Header, offset: u32, out: &mut [u8])
    requires { Lawful header × (20 ≤ length out.old) }
    ensures { Puts out.old 12 (Packet.main_header header offset) out.new }
{
    put_bytes(&[0], 12, out);
    put_number::<3>(offset, 13, out);
    let fields = [
        header.kind as u8,
        header.q as u8,
        header.width as u8,
        header.height as u8,
    ];
    put_bytes(&fields, 16, out);
}

// F and L are 1 and the count is 0x3FFF: the scan is not cut by its restart intervals.
#[tactic(auto, using(laws::specs::Put::puts_none), unfolding(crate::specs::Packet::restart_header, laws::specs::Spelled::spelled))]
fn put_restart(header: Header, out: &mut [u8])
    requires { 20 + length (Packet.restart_header header Packet.not_by_intervals) ≤ length out.old }
    ensures { Puts out.old 20 (Packet.restart_header header Packet.not_by_intervals) out.new }
{
    if has_restart(header) {
        put_number::<2>(header.interval, RESTART_AT, out);
        put_number::<2>(0xFFFF, RESTART_AT + 2, out);
    }
}

// Zero byte and precision 0, the length, and the tables, in the first packet.
#[tactic(auto, using(laws::specs::Put::puts_none), unfolding(crate::specs::Packet::table_header, laws::specs::Spelled::spelled))]
fn put_tables(picture: Picture, offset: u32, at: usize, out: &mut [u8])
    requires tables_len_bound { (length picture.tables.now ≤ 128) × (at ≤ 24) }
    requires offset_in_bounds { at + length (Packet.table_header picture.header picture.tables.now offset) ≤ length out.old }
    ensures { Puts out.old at (Packet.table_header picture.entry.header picture.entry.tables.now offset) out.new }
{
    if has_table_header(picture.header, offset) {
        put_bytes(&[0, 0], at, out);
        put_number::<2>(picture.tables.len() as u32, at + 2, out);
        put_bytes(picture.tables, at + 4, out);
    }
}

// The last N bytes of a number, most significant byte first.
fn put_number<const N: usize>(v: u32, at: usize, out: &mut [u8])
    requires few { N ≤ 4 }
    requires room { at + N ≤ length out.old }
    ensures { Puts out.old at (spelled N v) out.new }
{
    put_bytes(&v.to_be_bytes()[4 - N..], at, out);
}

// A place stands beside the output, since each part has one of its own that the headers fix: a cursor would only count it again.
fn put_bytes(bytes: &[u8], at: usize, out: &mut [u8])
    requires { at + length bytes.now ≤ length out.old }
    ensures { Puts out.old at bytes.now out.new }
{
    out[at..at + bytes.len()].copy_from_slice(bytes);
}
