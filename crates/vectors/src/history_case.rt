// Histories of a receiver: lines that share a session, each of which goes on from what the one before left. The comments of `stdin`
// say what each form gives.
use crate::file_case;
use crate::hex::read_hex;
use crate::state_case::{given, write_fragments, write_receiver};
use crate::text::{part, reads_as, write_bytes, write_number, write_places};
use kept::Kept;
use state::Receiver;

// The session's area is the front of the one that is lent to each line.
#[derive(Clone, Copy)]
pub(crate) struct Session {
    receiver: Receiver,
    length: usize,
}

// The session before any line begins one.
pub(crate) fn first() -> Session {
    Session {
        receiver: state::open(1, 1).receiver,
        length: 1,
    }
}

// None, and the session is as it was, where the line is no such case.
pub(crate) fn run(
    rt: &impl Print,
    line: &[u8],
    session: &mut Session,
    area: &mut [u8],
) -> Option<()> {
    begin(rt, line, session, area)
        .or_else(|| made(line, session, area))
        .or_else(|| go_on(rt, line, session, area))
}

fn begin(rt: &impl Print, line: &[u8], session: &mut Session, area: &mut [u8]) -> Option<()> {
    let mut n = [0u32; 3];
    reads_as(line, b"begin", &mut n)?;
    let [source, room, length] = n;
    let opened = state::open(source, room);
    *session = start(opened.receiver, length, area)?;
    write_number(rt, opened.answer.reply);
    write_number(rt, opened.answer.held);
    Some(())
}

fn made(line: &[u8], session: &mut Session, area: &mut [u8]) -> Option<()> {
    let mut length = [0u32; 1];
    let receiver = given(line, b"made", &mut length)?;
    *session = start(receiver, length[0], area)?;
    Some(())
}

// Another session, where the area is long enough.
fn start(receiver: Receiver, length: u32, area: &mut [u8]) -> Option<Session> {
    let length = length as usize;
    if area.len() < length {
        return None;
    }
    area.fill(7);
    Some(Session { receiver, length })
}

fn go_on(rt: &impl Print, line: &[u8], session: &mut Session, area: &mut [u8]) -> Option<()> {
    // Always there: each session's length was held to the area's when it began.
    let area = area.get_mut(..session.length)?;
    if let Some(bytes) = line.strip_prefix(b"take") {
        return take(rt, bytes, &mut session.receiver, area);
    }
    let receiver = &session.receiver;
    show(rt, line, receiver, area).or_else(|| file_case::run(rt, line, receiver, area))
}

fn take(rt: &impl Print, line: &[u8], receiver: &mut Receiver, area: &mut [u8]) -> Option<()> {
    let mut buffer = [0u8; 65536];
    let packet = read_hex(line, &mut buffer)?;
    let received = receiver::receive(*receiver, area, packet);
    write_number(rt, received.answer.reply);
    write_number(rt, received.answer.held);
    *receiver = received.receiver;
    Some(())
}

// None where the line asks for no part of the session, or there is no such part.
fn show(rt: &impl Print, line: &[u8], receiver: &Receiver, area: &[u8]) -> Option<()> {
    if line == b"shown".as_slice() {
        write_receiver(rt, receiver);
        return Some(());
    }
    let mut n = [0u32; 2];
    if reads_as(line, b"pieces", &mut n).is_some() {
        return write_fragments(rt, &receiver.fragments, n[0], n[1]);
    }
    if reads_as(line, b"entries", &mut n).is_some() {
        return write_places(rt, &receiver.tables, n[0], n[1]);
    }
    if reads_as(line, b"store", &mut n).is_some() {
        return write_store(rt, &receiver.kept, n[0], n[1]);
    }
    reads_as(line, b"area", &mut n)?;
    write_places(rt, area, n[0], n[1])
}

// Nothing is written where the store has not so many bytes.
fn write_store(rt: &impl Print, kept: &Kept, from: u32, count: u32) -> Option<()> {
    let bytes = part(&kept.tables, from, count)?;
    write_number(rt, kept.q);
    write_bytes(rt, bytes);
    Some(())
}
