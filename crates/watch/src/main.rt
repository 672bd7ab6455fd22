// Reads RFC 4571 records from standard input, and hands their packets to a receiver of source 1 with room for 32,768 bytes. Each
// complete record gets a line: its number, the receiver's reply, and the bytes held. The last line says whether the input ended behind
// a record or in one, and how many were complete.
#![tactic(auto)]

use records::{LONGEST, Next};
use state::Answer;

fn main(rt: HostRuntime) {
    let mut input = rt.stdin();
    let mut area = [0u8; 32768];
    let mut buffer = [0u8; LONGEST];
    let mut receiver = state::open(1, 32768).receiver;
    // A proved loop ends, and nothing says that the input does: no run comes to so many records.
    for count in 0..u64::MAX {
        // A read that fails is an end like any other, as one that gives nothing.
        let (taken, _) = records::take_next(&mut input, receiver, &mut area, &mut buffer);
        let Next::Answered(answer) = taken.came else {
            write_end(&rt, taken.came, count);
            break;
        };
        receiver = taken.receiver;
        write_line(&rt, count + 1, answer);
    }
}

// What cannot be printed is passed over, here and at the end: the packets are taken all the same.
fn write_line(rt: &impl Print, number: u64, answer: Answer) {
    let _ = println!(rt; "{number} {} {}", answer.reply, answer.held);
}

fn write_end(rt: &impl Print, came: Next, count: u64) {
    let end = if let Next::Cut = came { "cut" } else { "end" };
    let _ = println!(rt; "{end} {count}");
}
