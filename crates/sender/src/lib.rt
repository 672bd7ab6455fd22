// The packets of a picture: the sender of JPEG scan data in RTP packets.
#![tactic(auto)]

mod cut;
mod headers;
mod judge;
mod write;

ghost use Rattle.replies.specs.Output.{written};
ghost use Rattle.sender.specs.Picture.{contents};
ghost use Rattle.sender.specs.Sending.{Sends};

use crate::write::put_packet;
use replies::Refusal;
use wire::Header;

// A picture to be sent: its header fields, its tables, which may be none, and its scan.
#[derive(Clone, Copy)]
pub struct Picture<'a> {
    pub header: Header,
    pub tables: &'a [u8],
    pub scan: &'a [u8],
}

// What RTP stamps on the packets of a picture: the sequence number, which is that of the first packet and counts on from there, the
// picture's time stamp, and the source.
#[derive(Clone, Copy, Debug, PartialEq, Eq)]
pub struct Stamp {
    pub start: u16,
    pub time: u32,
    pub source: u32,
}

// Packet k of a picture, from 0, into the front of `out`: how many bytes it has. `size` is the length to which the picture's packets
// are filled.
pub fn packet(
    picture: Picture,
    size: u32,
    stamp: Stamp,
    k: u32,
    out: &mut [u8],
) -> Result<u32, Refusal>
    ensures { Sends (contents picture.entry) size stamp k out.old (written result) out.new }
{
    picture.judge(size, k)?;
    let cut = picture.cut_at(size, k);
    let length = picture.headers_length(cut.offset) + cut.length as usize;
    if out.len() < length {
        return Err(Refusal::PacketOutput);
    }
    put_packet(stamp, picture, k, cut, out);
    Ok(length as u32)
}
