// The counts that a run is judged by: what its packets were answered, and what became of its pictures.
#![tactic(auto)]

ghost use Rattle.std.specs.Prelude.{◌≡◌};
ghost use Rattle.tally.specs.Tally.{CountsNothing, Adds, Closes, TellsAccepted, raised, is_unfinished, gives_up};

use replies::{HELD, WHOLE};
use state::{Answer, Receiver};

// Every count is modulo 2^64, which no run comes to.
#[derive(Clone, Copy)]
pub struct Tally {
    // Packets that came.
    pub read: u64,
    // How many of them got each reply: those of a receiver are below 32.
    pub replies: [u64; 32],
    // Pictures that were held unfinished when a newer one started, or at the end.
    pub given_up: u64,
}

// Before the first packet.
pub fn none() -> Tally
    ensures { CountsNothing result }
{
    Tally {
        read: 0,
        replies: [0; 32],
        given_up: 0,
    }
}

// With one packet more: its answer, and the receiver before and after it.
#[tactic(auto, unfolding(crate::specs::Tally::added))]
pub fn add(tally: Tally, before: &Receiver, answer: Answer, after: &Receiver) -> Tally
    ensures { Adds tally before.now answer after.now result }
{
    Tally {
        read: tally.read.wrapping_add(1),
        replies: raise(tally.replies, answer.reply),
        given_up: tally
            .given_up
            .wrapping_add(u64::from(gives_up(before, after))),
    }
}

// At the end, with the receiver as the last packet left it: what it holds unfinished is given up.
#[tactic(auto, unfolding(crate::specs::Tally::closed))]
pub fn close(tally: Tally, last: &Receiver) -> Tally
    ensures { Closes tally last.now result }
{
    Tally {
        given_up: tally.given_up.wrapping_add(u64::from(is_unfinished(last))),
        ..tally
    }
}

// The packets accepted: held, or whole with them.
pub fn accepted(tally: Tally) -> u64
    ensures { TellsAccepted tally result }
{
    tally.replies[HELD as usize].wrapping_add(tally.replies[WHOLE as usize])
}

// One more at the place of a reply, and nothing where there is no such place.
#[tactic(auto, using(crate::specs::Tally::raised_within, crate::specs::Tally::raised_outside))]
fn raise(mut replies: [u64; 32], reply: u32) -> [u64; 32]
    ensures { result ≡ raised reply replies }
{
    let place = reply as usize;
    // `get_mut` says nothing of what the array ends as.
    if place < replies.len() {
        replies[place] = replies[place].wrapping_add(1);
    }
    replies
}

// Whether a call gave up a picture: the receiver held one unfinished, and afterwards has another time stamp.
fn gives_up(before: &Receiver, after: &Receiver) -> bool
    ensures { result ≡ gives_up before.now after.now }
{
    is_unfinished(before) && before.time != after.time
}

fn is_unfinished(receiver: &Receiver) -> bool
    ensures { result ≡ is_unfinished receiver.now }
{
    receiver.picture == 1 && receiver.whole != 1
}
