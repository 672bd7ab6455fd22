// rebuild SOURCE PREFIX: takes RFC 4571 records from standard input, and writes every picture of that source that becomes whole to
// PREFIX000001.jpg and so on, as soon as it is whole. At the end it prints the counts that the run is judged by.
#![tactic(auto)]

mod failure;
mod picture;
mod report;

use records::{LONGEST, Next};
use replies::WHOLE;
use std::env::{Env, FillError};
use std::io::Read;
use tally::Tally;

fn main(rt: HostRuntime) {
    let mut word = [0u8; 4096];
    match arguments(&rt, &mut word) {
        Some((source, prefix)) => run(&rt, source, prefix),
        None => write_usage(&rt),
    }
}

// The source and the prefix, where there are these two words and no third.
fn arguments<'a>(rt: &impl Env, word: &'a mut [u8; 4096]) -> Option<(u32, &'a [u8])> {
    let n = rt.arg(1, word).ok()?;
    let source = text::number(&word[..n])?;
    let n = rt.arg(2, word).ok()?;
    let Err(FillError::NotPresent) = rt.arg(3, &mut [0u8; 1]) else {
        return None;
    };
    Some((source, &word[..n]))
}

// What cannot be printed is passed over, here and in the report: there is nobody else to tell.
fn write_usage(rt: &impl Eprint) {
    let _ = eprintln!(rt;
        "usage: rebuild SOURCE PREFIX <RECORDS, where SOURCE is a number below 2^32, in decimal or in hexadecimal behind 0x"
    );
}

// Packet by packet to the end of the records.
fn run(rt: &HostRuntime, source: u32, prefix: &[u8]) {
    let mut input = rt.stdin();
    let errors = rt.stderr();
    let mut area = [0u8; 65536];
    let mut buffer = [0u8; LONGEST];
    let mut receiver = state::open(source, 65536).receiver;
    let mut tally = tally::none();
    let mut not_written: u64 = 0;
    // A proved loop ends, and nothing says that the input does: no run comes to so many records.
    for _ in 0..u64::MAX {
        let (taken, _) = records::take_next(&mut input, receiver, &mut area, &mut buffer);
        let Next::Answered(answer) = taken.came else {
            let tally = tally::close(tally, &receiver);
            report::write(rt, &tally, taken.came, not_written);
            break;
        };
        tally = tally::add(tally, &receiver, answer, &taken.receiver);
        receiver = taken.receiver;
        if answer.reply == WHOLE {
            let saved = picture::save(rt, &errors, &receiver, &area, prefix, wholes(&tally));
            not_written = not_written.wrapping_add(u64::from(saved.is_err()));
        }
    }
    report_read_error(&mut input, &errors);
}

// The pictures that have become whole: each is answered so once.
fn wholes(tally: &Tally) -> u64 {
    tally.replies[WHOLE as usize]
}

// A read that fails is an end like any other, and told where the next one fails too: an interrupted one is no error of the input's.
fn report_read_error(input: &mut impl Read, errors: &impl Print) {
    if let Err(error) = input.read(&mut [0u8; 1]) {
        failure::say(errors, b"standard input", &error);
    }
}
