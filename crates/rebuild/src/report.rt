// What a run came to, for people to read.
use crate::wholes;
use records::Next;
use replies::Refusal;
use tally::Tally;

pub(crate) fn write(rt: &impl Print, tally: &Tally, came: Next, not_written: u64) {
    write_count(rt, "packets read", tally.read);
    write_count(
        rt,
        "cut short at the end",
        u64::from(matches!(came, Next::Cut)),
    );
    write_count(rt, "accepted", tally::accepted(*tally));
    write_count(rt, "repeated", tally.replies[Refusal::Again as usize]);
    write_refusals(rt, &tally.replies);
    write_count(rt, "pictures whole", wholes(tally));
    write_count(rt, "pictures given up unfinished", tally.given_up);
    write_count(rt, "files not written", not_written);
}

// A line for each refusal that occurred, in the order of the numbers.
fn write_refusals(rt: &impl Print, replies: &[u64; 32]) {
    for (number, &count) in (3..32).zip(&replies[3..]) {
        if count != 0 {
            write_refusal(rt, number, count);
        }
    }
}

fn write_refusal(rt: &impl Print, number: u32, count: u64) {
    let _ = match Refusal::try_from(number) {
        Ok(refusal) => println!(rt; "refused {number} ({refusal}): {count}"),
        Err(_) => println!(rt; "refused {number} (no reply of a receiver): {count}"),
    };
}

fn write_count(rt: &impl Print, what: &str, count: u64) {
    let _ = println!(rt; "{what}: {count}");
}
