// What a packet says: the reader of RTP packets with JPEG scan data.
#![tactic(auto)]

mod field;
mod jpeg;
mod restart;
mod rtp;
mod table_header;

ghost use Rattle.std.specs.Prelude.{◌≤◌, ◌≡◌, length};
ghost use Rattle.wire.specs.Kind.{TellsRestarts};
ghost use Rattle.wire.specs.Lawful.{TellsLawful, has_interval};
ghost use Rattle.wire.specs.Reading.{Reads, GivesScan, GivesTables, said, filled_up};
ghost use Rattle.wire.specs.Rtp.{Rest};
ghost use Rattle.wire.specs.Tables.{TellsFull, scan_at};
ghost use Rattle.wire.specs.TableSource.{TellsSource};

use crate::field::{byte_at, number_at};
use crate::table_header::{tables_at, tables_length};
use replies::Refusal;

// What the headers of every packet of a picture have in common: the type, Q, the sides in units of 8 pixels, and the restart
// interval, 0 for types 0 and 1. They are plain numbers, since `is_lawful` and the sender take any and refuse by their answer.
#[derive(Clone, Copy, Debug, PartialEq, Eq, Default)]
pub struct Header {
    pub kind: u32,
    pub q: u32,
    pub width: u32,
    pub height: u32,
    pub interval: u32,
}

// A part of a packet: its place, and how many bytes it has. Tables that do not come have none: no `Option`, since `scan` and
// `tables` take any `Packet`.
#[derive(Clone, Copy, Debug, PartialEq, Eq)]
pub struct Part {
    pub at: usize,
    pub length: usize,
}

// What a packet says, and where its tables and its scan data lie in it.
#[derive(Clone, Copy, Debug, PartialEq, Eq)]
pub struct Packet {
    // A number, since `scan` and `tables` take any `Packet`.
    pub marker: u32,
    pub time: u32,
    pub offset: u32,
    pub header: Header,
    pub tables: Part,
    pub scan: Part,
}

// Whether the pictures of a type have restart intervals, or are not carried at all.
#[derive(Clone, Copy, Debug, PartialEq, Eq)]
pub enum Restarts {
    Absent,
    Present,
    NotCarried,
}

// Where the tables of a Q come from, or that it has no meaning.
#[derive(Clone, Copy, Debug, PartialEq, Eq)]
pub enum TableSource {
    Made,
    KeptOrBrought,
    AlwaysBrought,
    Reserved,
}

// What a packet says to a receiver of that source, or why it is refused.
pub fn read(source: u32, packet: &[u8]) -> Result<Packet, Refusal>
    ensures { Reads source packet.now result }
{
    rtp::judge(source, packet)?;
    let start = rtp::headers_end(packet);
    let payload = &packet[start..packet.len() - rtp::padding(packet)];
    jpeg::judge(payload)?;
    Ok(says(packet, start, payload))
}

// The values of a packet that has passed its checks, from the packet and from its payload, which begins at `start`.
fn says(packet: &[u8], start: usize, payload: &[u8]) -> Packet
    requires rest { Rest packet.now start payload.now }
    requires payload_in_bounds { scan_at payload.now ≤ length payload.now }
    ensures { result ≡ said packet.now }
{
    let tables_at = tables_at(payload);
    let tables_length = tables_length(payload) as usize;
    let scan_at = tables_at + tables_length;
    Packet {
        marker: u32::from(byte_at(packet, 1) / 128),
        time: number_at::<4>(packet, 4),
        offset: number_at::<3>(payload, 1),
        header: jpeg::header(payload),
        tables: Part {
            at: start + tables_at,
            length: tables_length,
        },
        scan: Part {
            at: start + scan_at,
            length: payload.len() - scan_at,
        },
    }
}

// The scan data of a packet, which is a part of the packet itself.
pub fn scan(packet: &[u8], said: Packet) -> &[u8]
    ensures { GivesScan packet.now said result.now }
{
    let part = said.scan;
    slices::part(packet, part.at, part.length)
}

// The tables that a packet brings, and 128 zeros where none come.
pub fn tables(packet: &[u8], said: Packet) -> [u8; 128]
    ensures { GivesTables packet.now said result }
{
    let part = said.tables;
    filled_up(slices::part(packet, part.at, part.length))
}

// 128 bytes: the first of these, and 0 where there are fewer.
fn filled_up(bytes: &[u8]) -> [u8; 128]
    ensures { result ≡ filled_up bytes.now }
{
    let front = slices::part(bytes, 0, 128);
    let mut filled = [0; 128];
    slices::put(front, 0, &mut filled);
    filled
}

// Whether the reader can give these header fields.
#[tactic(auto, unfolding(crate::specs::Lawful::is_lawful, laws::specs::Within::within))]
pub fn is_lawful(header: Header) -> bool
    ensures { TellsLawful header result }
{
    let has_meaning = table_source(header.q) != TableSource::Reserved;
    let has_sides = (1..=255).contains(&header.width) && (1..=255).contains(&header.height);
    has_meaning && has_sides && restarts_of(header.kind).have(header.interval)
}

// Whether these are tables for a picture to bring: 128 bytes, none of them 0.
pub fn are_full(tables: &[u8]) -> bool
    ensures { TellsFull tables.now result }
{
    tables.len() == 128 && !tables.contains(&0)
}

pub fn restarts_of(kind: u32) -> Restarts
    ensures { TellsRestarts kind result }
{
    match kind {
        0 | 1 => Restarts::Absent,
        64 | 65 => Restarts::Present,
        _ => Restarts::NotCarried,
    }
}

pub fn table_source(q: u32) -> TableSource
    ensures { TellsSource q result }
{
    match q {
        1..=50 | 51..=99 => TableSource::Made,
        128..=254 => TableSource::KeptOrBrought,
        255 => TableSource::AlwaysBrought,
        _ => TableSource::Reserved,
    }
}

impl Restarts {
    // Whether this is an interval of such pictures.
    #[tactic(auto, unfolding(laws::specs::Within::within))]
    fn have(self, interval: u32) -> bool
        ensures { result ≡ has_interval self interval }
    {
        match self {
            Restarts::Absent => interval == 0,
            Restarts::Present => (1..=65535).contains(&interval),
            Restarts::NotCarried => false,
        }
    }
}
