// Receivers that no call needs to have left: one good state, and changes of it by place. The places are the numbers of the struct in
// their order: 12 numbers; offset, length and marker of 64 fragments; 128 table bytes; the kept Q; 128 kept table bytes. A field that
// is added to the struct takes a place from 461 on, so that the lines stay as they are.
ghost use Rattle.std.specs.Prelude.{◌<◌, IfSome, length};

use crate::text::{next_number, number};
use fragments::Fragment;
use kept::Kept;
use state::Receiver;

// The good state with the changes that the line says; none where the line is wrong.
pub(crate) fn read(line: &[u8]) -> Option<Receiver> {
    let mut receiver = good();
    let mut rest = line;
    while !rest.is_empty() {
        let (change, behind) = next_change(rest)?;
        change.make(&mut receiver)?;
        rest = behind;
    }
    Some(receiver)
}

// So many places get a value, from a first on.
#[derive(Clone, Copy)]
struct Change {
    from: u32,
    count: u32,
    value: u32,
}

// The change that the line begins with, and what stands behind it: one place, or as many as a star says.
fn next_change(line: &[u8]) -> Option<(Change, &[u8])>
    ensures { IfSome result (λ read. length read.1.now < length line.now) }
{
    let (from, rest) = next_number(line)?;
    let (count, rest) = match rest.strip_prefix(b"*") {
        Some(count) => number(count)?,
        None => (1, rest),
    };
    let (value, rest) = next_number(rest)?;
    Some((Change { from, count, value }, rest))
}

impl Change {
    // None, and nothing is changed, where there are no such places.
    fn make(self, receiver: &mut Receiver) -> Option<()> {
        let behind = self.from.checked_add(self.count)?;
        if 461 < behind {
            return None;
        }
        for place in self.from..behind {
            set(receiver, place, self.value);
        }
        Some(())
    }
}

fn good() -> Receiver {
    let mut receiver = state::open(1, 1000).receiver;
    receiver.picture = 1;
    receiver.time = 1000;
    receiver.kind = 1;
    receiver.q = 50;
    receiver.width = 2;
    receiver.height = 2;
    receiver.fragment_count = 3;
    let three = [fragment(0, 100), fragment(100, 50), fragment(200, 100)];
    for (place, fragment) in receiver.fragments.iter_mut().zip(three) {
        *place = fragment;
    }
    let mut tables = [0u8; 128];
    let _ = tables::make_tables(50, &mut tables);
    receiver.tables = tables;
    receiver.kept = Kept {
        q: 128,
        tables: [16; 128],
    };
    receiver
}

fn fragment(offset: u32, length: u32) -> Fragment {
    Fragment {
        offset,
        length,
        marker: 0,
    }
}

fn set(receiver: &mut Receiver, place: u32, value: u32) {
    match place {
        0 => receiver.source = value,
        1 => receiver.room = value,
        2 => receiver.picture = value,
        3 => receiver.time = value,
        4 => receiver.kind = value,
        5 => receiver.q = value,
        6 => receiver.width = value,
        7 => receiver.height = value,
        8 => receiver.interval = value,
        9 => receiver.end = value,
        10 => receiver.whole = value,
        11 => receiver.fragment_count = value,
        12..=203 => set_in_fragments(&mut receiver.fragments, place - 12, value),
        204..=331 => set_byte(&mut receiver.tables, place - 204, value),
        332 => receiver.kept.q = value,
        333.. => set_byte(&mut receiver.kept.tables, place - 333, value),
    }
}

fn set_in_fragments(fragments: &mut [Fragment], place: u32, value: u32) {
    if let Some(fragment) = fragments.get_mut((place / 3) as usize) {
        match place % 3 {
            0 => fragment.offset = value,
            1 => fragment.length = value,
            _ => fragment.marker = value,
        }
    }
}

fn set_byte(tables: &mut [u8], place: u32, value: u32) {
    if let Some(byte) = tables.get_mut(place as usize) {
        *byte = (value % 256) as u8;
    }
}
