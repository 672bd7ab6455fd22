// The head of a picture's file: the bytes in front of its scan.
#![tactic(auto)]

mod headers;
mod huffman;
mod segment;
mod writer;

ghost use Rattle.std.specs.Prelude.{◌≤◌, length};
ghost use Rattle.laws.specs.Put.{Puts};
ghost use Rattle.head.specs.Head.{head, head_length, quantisers, PutsHead, TellsHeadLength};
ghost use Rattle.head.specs.Writer.{HasRoom, Writes};

use crate::segment::Marker;
use crate::writer::Writer;

// What a head tells of a picture, its tables aside: type, sides in units of 8 pixels, and restart interval.
// The interval is a number, since 0 is JPEG's own word for none (T.81 B.2.4.4), and what `length` takes.
#[derive(Clone, Copy)]
pub struct Frame {
    // Any number: `put` takes all.
    pub kind: u8,
    pub width: u8,
    pub height: u8,
    pub interval: u16,
}

// How long the head is.
#[tactic(auto, unfolding(crate::specs::Head::head_length))]
pub fn length(interval: u16) -> usize
    ensures { TellsHeadLength interval result }
{
    if interval == 0 { 605 } else { 611 }
}

// Writes the head into the front of `out`, and nothing where it does not fit. The tables are luma's and chroma's, in zigzag order.
#[tactic(auto, using(slices::specs::Slices::put_fits, slices::specs::Slices::put_not, crate::specs::Head::length_head))]
pub fn put(frame: Frame, tables: &[u8; 128], out: &mut [u8])
    ensures { PutsHead frame tables.now out.old out.new }
{
    if length(frame.interval) <= out.len() {
        put_head(frame, tables, out);
    }
}

#[tactic(auto, using(crate::specs::Head::length_restarts, crate::specs::Head::length_quantisers, crate::specs::Head::length_frame_header, crate::specs::Head::length_huffman_tables), unfolding(crate::specs::Head::head_length))]
fn put_head(frame: Frame, tables: &[u8; 128], out: &mut [u8])
    requires { head_length frame.interval ≤ length out.old }
    ensures { Puts out.old 0 (head frame tables.now) out.new }
{
    let mut file = Writer { out, at: 0 };
    file.put(&[0xFF, Marker::Soi.code()]);
    file.put_quantisers(tables);
    file.put_restarts(frame.interval);
    file.put_frame(frame);
    file.put_huffman_tables();
    file.put_scan();
}

impl Writer<'_> {
    // DQT of luma, under number 0, and of chroma, under 1; 0 in the upper four bits stands for entries of one byte.
    #[tactic(auto, using(crate::specs::Segment::length_segment))]
    fn put_quantisers(&mut self, tables: &[u8; 128])
        requires { HasRoom self.old 138 }
        ensures { Writes self.old (quantisers tables.now) self.new }
    {
        let (luma, chroma) = tables.split_at(64);
        self.put_segment(Marker::Dqt, &[0], luma);
        self.put_segment(Marker::Dqt, &[1], chroma);
    }
}
