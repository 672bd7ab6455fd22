// Cases of the receiver's state, of the fragments that it holds and of its store; the comments of `stdin` say what each form gives.
// CHANGES are of the good state in made_up.rt.
ghost use Rattle.std.specs.Prelude.{◌≤◌};

use crate::made_up;
use crate::text::{next_numbers, part, reads_as, write_number};
use fragments::Fragment;
use kept::Kept;
use state::Receiver;

// None where the line is no such case.
pub(crate) fn run(rt: &impl Print, line: &[u8]) -> Option<()> {
    open(rt, line)
        .or_else(|| formed(rt, line))
        .or_else(|| placed(rt, line))
        .or_else(|| insert(rt, line))
        .or_else(|| found(rt, line))
        .or_else(|| keep(rt, line))
}

fn open(rt: &impl Print, line: &[u8]) -> Option<()> {
    let mut n = [0u32; 2];
    reads_as(line, b"open", &mut n)?;
    let [source, room] = n;
    let opened = state::open(source, room);
    write_number(rt, opened.answer.reply);
    write_number(rt, opened.answer.held);
    write_receiver(rt, &opened.receiver);
    Some(())
}

// The 12 numbers, and how many of the others are not 0.
pub(crate) fn write_receiver(rt: &impl Print, r: &Receiver) {
    for n in [
        r.source,
        r.room,
        r.picture,
        r.time,
        r.kind,
        r.q,
        r.width,
        r.height,
        r.interval,
        r.end,
        r.whole,
        r.fragment_count,
    ] {
        write_number(rt, n);
    }
    let used = used_numbers(r.fragments) + used_bytes(r.tables) + used_in(&r.kept);
    write_number(rt, used);
}

fn formed(rt: &impl Print, line: &[u8]) -> Option<()> {
    let receiver = made_up::read(line.strip_prefix(b"formed")?)?;
    write_number(rt, u32::from(state::inspect(&receiver).is_ok()));
    Some(())
}

// The numbers behind a word, as many as there is room for, and then a state; none where the line is another case.
pub(crate) fn given(line: &[u8], word: &[u8], numbers: &mut [u32]) -> Option<Receiver> {
    made_up::read(next_numbers(line.strip_prefix(word)?, numbers)?)
}

fn placed(rt: &impl Print, line: &[u8]) -> Option<()> {
    let mut n = [0u32; 3];
    let receiver = given(line, b"placed", &mut n)?;
    let [offset, length, marker] = n;
    let f = Fragment {
        offset,
        length,
        marker,
    };
    write_place(rt, receiver.fragments, receiver.fragment_count, f);
    Some(())
}

// By value: the prover knows how long an array is that is a parameter, and not one that is a field.
fn write_place(rt: &impl Print, fragments: [Fragment; 64], count: u32, f: Fragment) {
    let p = fragments::place(&fragments, count, f);
    write_number(rt, p.at);
    write_number(rt, u8::from(p.shares));
    write_number(rt, u8::from(p.same));
    write_number(rt, fragments::survey(&fragments, count).bytes);
}

fn insert(rt: &impl Print, line: &[u8]) -> Option<()> {
    let mut n = [0u32; 6];
    let receiver = given(line, b"insert", &mut n)?;
    let [at, offset, length, marker, from, count] = n;
    let f = Fragment {
        offset,
        length,
        marker,
    };
    let after = inserted(receiver.fragments, receiver.fragment_count, at as usize, f);
    write_fragments(rt, &after, from, count)
}

// By value, as above.
fn inserted(mut fragments: [Fragment; 64], count: u32, at: usize, f: Fragment) -> [Fragment; 64] {
    fragments::insert(&mut fragments, count, at, f);
    fragments
}

// So many fragments from a place on; none where there are not so many places.
pub(crate) fn write_fragments(
    rt: &impl Print,
    fragments: &[Fragment],
    from: u32,
    count: u32,
) -> Option<()> {
    for f in part(fragments, from, count)? {
        write_number(rt, f.offset);
        write_number(rt, f.length);
        write_number(rt, f.marker);
    }
    Some(())
}

fn found(rt: &impl Print, line: &[u8]) -> Option<()> {
    let mut q = [0u32; 1];
    let receiver = given(line, b"found", &mut q)?;
    write_found(rt, &receiver.kept, q[0]);
    Some(())
}

fn keep(rt: &impl Print, line: &[u8]) -> Option<()> {
    let mut n = [0u32; 3];
    let receiver = given(line, b"keep", &mut n)?;
    let [q, byte, asked] = n;
    let byte = (byte % 256) as u8;
    let after = kept::keep(&receiver.kept, q, [byte; 128]);
    write_found(rt, &after, asked);
    Some(())
}

fn write_found(rt: &impl Print, kept: &Kept, q: u32) {
    write_number(rt, u8::from(kept::has(kept, q)));
    let tables = kept::find(kept, q);
    write_number(rt, used_bytes(tables));
    write_number(rt, tables[0]);
    write_number(rt, tables[127]);
}

// How many are not 0. By value, as above, and so are the fragments.
fn used_bytes(bytes: [u8; 128]) -> u64
    ensures { result ≤ 128 }
{
    let mut n = 0;
    for byte in bytes {
        n += u64::from(byte != 0);
    }
    n
}

fn used_in(kept: &Kept) -> u64
    ensures { result ≤ 129 }
{
    u64::from(kept.q != 0) + used_bytes(kept.tables)
}

fn used_numbers(fragments: [Fragment; 64]) -> u64
    ensures { result ≤ 192 }
{
    let mut n = 0;
    for f in fragments {
        n += u64::from(f.offset != 0) + u64::from(f.length != 0) + u64::from(f.marker != 0);
    }
    n
}
