use crate::{LONGEST, Next, Taken, take_next};
use std::io;
use std::io::{ErrorKind, Read};

// Gives its bytes in reads of `most` at most, and one error in front of byte `fails_at`.
#[derive(Drop)]
struct Input {
    bytes: &'static [u8],
    most: usize,
    fails_at: Option<usize>,
    error: ErrorKind,
}

impl Read for Input {
    fn read(&mut self, buf: &mut [u8]) -> io::Result<usize> {
        if self.fails_at == Some(0) {
            self.fails_at = None;
            return Err(self.error.into());
        }
        let most = self.most.min(self.fails_at.unwrap_or(usize::MAX));
        let n = most.min(self.bytes.len()).min(buf.len());
        buf[..n].copy_from_slice(&self.bytes[..n]);
        self.bytes = &self.bytes[n..];
        self.fails_at = self.fails_at.map(|place| place.saturating_sub(n));
        Ok(n)
    }
}

// Three records: a packet of three bytes, one of none, and one of two.
const BYTES: &[u8] = &[0, 3, 7, 8, 9, 0, 0, 0, 2, 5, 6];

fn input_of(most: usize, fails_at: Option<usize>, error: ErrorKind) -> Input {
    Input {
        bytes: BYTES,
        most,
        fails_at,
        error,
    }
}

// What the next records come to, a letter for each: answered, cut, or the end. It is a capital where a read failed.
fn letters(given: &mut Input) -> [u8; 5] {
    let mut receiver = state::open(1, 4).receiver;
    let mut area = [0u8; 4];
    let mut buffer = [0u8; LONGEST];
    let mut letters = [b'-'; 5];
    for letter in &mut letters {
        let (taken, read) = take_next(given, receiver, &mut area, &mut buffer);
        receiver = taken.receiver;
        *letter = match taken.came {
            Next::Answered(_) => b'a',
            Next::Cut => b'c',
            Next::End => b'e',
        };
        if read.is_err() {
            letter.make_ascii_uppercase();
        }
    }
    letters
}

#[test]
fn every_record_is_taken(rt: HostRuntime) {
    let whole = letters(&mut input_of(LONGEST, None, ErrorKind::Other));
    assert_eq!(rt; whole, *b"aaaee");
}

#[test]
fn a_short_read_cuts_nothing(rt: HostRuntime) {
    for most in 1..6 {
        let short = letters(&mut input_of(most, None, ErrorKind::Other));
        assert_eq!(rt; short, *b"aaaee");
    }
}

#[test]
fn a_read_that_fails_is_an_end(rt: HostRuntime) {
    for error in [ErrorKind::Other, ErrorKind::Interrupted] {
        // Between two records, in a length, and in a packet.
        let between = letters(&mut input_of(LONGEST, Some(5), error));
        assert_eq!(rt; between, *b"aEaae");
        let in_length = letters(&mut input_of(LONGEST, Some(8), error));
        assert_eq!(rt; in_length[..3], b"aaC"[..]);
        let in_packet = letters(&mut input_of(LONGEST, Some(3), error));
        assert_eq!(rt; in_packet[..1], b"C"[..]);
    }
}

// The error is the input's own.
#[test]
fn a_read_that_fails_is_told(rt: HostRuntime) {
    let mut given = input_of(LONGEST, Some(3), ErrorKind::Interrupted);
    let receiver = state::open(1, 4).receiver;
    let (_, read) = take_next(&mut given, receiver, &mut [0u8; 4], &mut [0u8; LONGEST]);
    assert!(rt; read.is_err_and(|error| error.kind() == ErrorKind::Interrupted));
}

#[test]
fn a_cut_record_is_told(rt: HostRuntime) {
    let mut short = input_of(4, None, ErrorKind::Other);
    short.bytes = &BYTES[..10];
    assert_eq!(rt; letters(&mut short), *b"aacee");
}

// What a longer record left in the buffer is no part of a shorter one.
#[test]
fn nothing_stale_is_taken(rt: HostRuntime) {
    let mut short = input_of(LONGEST, None, ErrorKind::Other);
    short.bytes = &[0, 2, 1, 1, 0];
    assert_eq!(rt; letters(&mut short), *b"aceee");
}
