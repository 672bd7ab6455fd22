// A marker segment.
ghost use Rattle.std.specs.Prelude.{◌+◌, ◌≤◌, ◌++◌, ◌≡◌, length};
ghost use Rattle.head.specs.Markers.{code};
ghost use Rattle.head.specs.Segment.{segment};
ghost use Rattle.head.specs.Writer.{HasRoom, Writes};

use crate::writer::Writer;

// The markers of a head, by their names in T.81 table B.1.
#[derive(Clone, Copy, Debug, PartialEq, Eq)]
pub(crate) enum Marker {
    Sof0 = 0xC0,
    Dht = 0xC4,
    Soi = 0xD8,
    Sos = 0xDA,
    Dqt = 0xDB,
    Dri = 0xDD,
}

impl Marker {
    // Its byte, behind FF.
    pub(crate) fn code(self) -> u8
        ensures { result ≡ code self }
    {
        self as u8
    }
}

impl Writer<'_> {
    // Its content is given in two parts, as the number of a table and the table. The length counts itself too.
    pub(crate) fn put_segment(&mut self, marker: Marker, front: &[u8], back: &[u8])
        requires counted { length front.now + length back.now ≤ 65533 }
        requires room { HasRoom self.old (4 + (length front.now + length back.now)) }
        ensures { Writes self.old (segment (code marker) (front.now ++ back.now)) self.new }
    {
        let content = front.len() + back.len();
        let [high, low] = (2 + content as u16).to_be_bytes();
        self.put(&[0xFF, marker.code(), high, low]);
        self.put(front);
        self.put(back);
    }
}
