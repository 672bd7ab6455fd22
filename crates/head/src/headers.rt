// The segments that tell of the picture: restart interval, frame and scan.
ghost use Rattle.std.specs.Prelude.{◌≡◌, length};
ghost use Rattle.head.specs.Head.{frame_header, luma_sampling, restarts, scan_header};
ghost use Rattle.head.specs.Writer.{HasRoom, Writes};

use crate::Frame;
use crate::segment::Marker;
use crate::writer::Writer;

// The number of the luma component; those of the two of chroma follow it.
const FIRST_COMPONENT: u8 = 0;

impl Writer<'_> {
    // DRI, where there is an interval.
    #[tactic(auto, using(crate::specs::Head::some_restarts, crate::specs::Head::no_restarts, crate::specs::Writer::writes_none, crate::specs::Segment::length_segment), unfolding(laws::specs::Spelled::spelled))]
    pub(crate) fn put_restarts(&mut self, interval: u16)
        requires { HasRoom self.old (length (restarts interval)) }
        ensures { Writes self.old (restarts interval) self.new }
    {
        if interval != 0 {
            self.put_segment(Marker::Dri, &interval.to_be_bytes(), &[]);
        }
    }

    // SOF0: 8 bits to a sample; the sides in pixels; of each component its number, its sampling and its quantiser table.
    pub(crate) fn put_frame(&mut self, frame: Frame)
        requires { HasRoom self.old 19 }
        ensures { Writes self.old (frame_header frame) self.new }
    {
        let [height_high, height_low] = (8 * frame.height as u16).to_be_bytes();
        let [width_high, width_low] = (8 * frame.width as u16).to_be_bytes();
        let content = [
            8,
            height_high,
            height_low,
            width_high,
            width_low,
            3,
            FIRST_COMPONENT,
            luma_sampling(frame.kind),
            0,
            FIRST_COMPONENT + 1,
            0x11,
            1,
            FIRST_COMPONENT + 2,
            0x11,
            1,
        ];
        self.put_segment(Marker::Sof0, &content, &[]);
    }

    // SOS: of each component its number and its Huffman tables; then coefficients 0 to 63, each in full.
    pub(crate) fn put_scan(&mut self)
        requires { HasRoom self.old 14 }
        ensures { Writes self.old scan_header self.new }
    {
        let content = [
            3,
            FIRST_COMPONENT,
            0x00,
            FIRST_COMPONENT + 1,
            0x11,
            FIRST_COMPONENT + 2,
            0x11,
            0,
            63,
            0,
        ];
        self.put_segment(Marker::Sos, &content, &[]);
    }
}

#[tactic(auto, unfolding(crate::specs::Head::luma_sampling))]
fn luma_sampling(kind: u8) -> u8
    ensures { result ≡ luma_sampling kind }
{
    match kind {
        0 | 64 => 0x21,
        _ => 0x22,
    }
}
