// The receiver's state: what it holds, how it is opened, and whether it keeps its own rules.
#![tactic(auto)]

mod check;

ghost use Rattle.std.specs.Prelude.{◌≡◌, length};
ghost use Rattle.fragments.specs.Array.{Surveys};
ghost use Rattle.state.specs.Opening.{Opens};
ghost use Rattle.state.specs.Receiver.{fresh, header_of};
ghost use Rattle.state.specs.WellFormed.{is_room, well_formed, Inspects, TellsWhole};

use fragments::{Fragment, Surveyed};
use kept::Kept;
use replies::{Refusal, SUCCESS};
use wire::Header;

// Every field is a number, flags too, and there is no padding: every bit pattern that a host can lend is a state. 0 stands for an end
// that is not known, and for what is not used.
#[repr(C)]
#[derive(Clone, Copy)]
pub struct Receiver {
    pub source: u32,
    pub room: u32,
    pub picture: u32,
    pub time: u32,
    pub kind: u32,
    pub q: u32,
    pub width: u32,
    pub height: u32,
    pub interval: u32,
    pub end: u32,
    pub whole: u32,
    pub fragment_count: u32,
    pub fragments: [Fragment; 64],
    pub tables: [u8; 128],
    pub kept: Kept,
}

// What a receiver answers: a reply, and how many scan bytes it holds afterwards. C's struct: a number, with 0 and 1 among the replies.
#[repr(C)]
#[derive(Clone, Copy)]
pub struct Answer {
    pub reply: u32,
    pub held: u32,
}

#[repr(C)]
#[derive(Clone, Copy)]
pub struct Opened {
    pub answer: Answer,
    pub receiver: Receiver,
}

// How many scan bytes a receiver holds, and where the last of them ends.
#[derive(Clone, Copy, Debug, PartialEq, Eq)]
pub struct Holding {
    pub held: u32,
    pub reach: u32,
}

// The header fields of its picture.
impl From<&Receiver> for Header {
    ghost from_gives = { λ r h. h ≡ header_of r.now };

    fn from(receiver: &Receiver) -> Self {
        Self {
            kind: receiver.kind,
            q: receiver.q,
            width: receiver.width,
            height: receiver.height,
            interval: receiver.interval,
        }
    }
}

// A receiver of a source, with `room` bytes for its scan. No Result: a refusal too hands C a receiver, a fresh one of room 0.
#[tactic(auto, unfolding(crate::specs::Opening::opening))]
pub fn open(source: u32, room: u32) -> Opened
    ensures { Opens source room result }
{
    if !is_room(room) {
        return Opened {
            answer: Answer {
                reply: Refusal::RoomOutside.number(),
                held: 0,
            },
            receiver: fresh(source, 0),
        };
    }
    Opened {
        answer: Answer {
            reply: SUCCESS,
            held: 0,
        },
        receiver: fresh(source, room),
    }
}

#[tactic(auto, unfolding(laws::specs::Within::within))]
fn is_room(room: u32) -> bool
    ensures { result ≡ is_room room }
{
    (1..=65536).contains(&room)
}

#[tactic(auto, unfolding(kept::specs::Kept::blank))]
fn fresh(source: u32, room: u32) -> Receiver
    ensures { result ≡ fresh source room }
{
    Receiver {
        source,
        room,
        picture: 0,
        time: 0,
        kind: 0,
        q: 0,
        width: 0,
        height: 0,
        interval: 0,
        end: 0,
        whole: 0,
        fragment_count: 0,
        fragments: fragments::none(),
        tables: [0; 128],
        kept: kept::none(),
    }
}

// What a receiver holds that keeps every rule of a well-formed one; any other is refused. The second clause hands on what the array's
// type says.
pub fn inspect(receiver: &Receiver) -> Result<Holding, Refusal>
    ensures inspects { Inspects receiver.now result }
    ensures fragments_len { length receiver.now.fragments ≡ 64 }
{
    let survey = fragments::survey(&receiver.fragments, receiver.fragment_count);
    if !well_formed(receiver, survey) {
        return Err(Refusal::NotWellFormed);
    }
    let held = survey.bytes as u32;
    let reach = survey.stop as u32;
    Ok(Holding { held, reach })
}

// The rules, with the survey of the fragments held.
fn well_formed(receiver: &Receiver, survey: Surveyed) -> bool
    requires { Surveys receiver.now.fragments receiver.now.fragment_count survey }
    ensures { result ≡ well_formed receiver.now }
{
    let header = Header::from(receiver);
    let count = receiver.fragment_count;
    is_room(receiver.room)
        && count <= 64
        && check::picture_right(receiver.picture, receiver.time, count, header)
        && check::fragments_right(survey, receiver.room, receiver.end, receiver.whole)
        && check::tables_right(survey.from_0, receiver.q, &receiver.tables)
        && kept::well_kept(&receiver.kept)
}

// The flag of a whole picture: 1 where the end is known and the bytes held add up to it.
#[tactic(auto, unfolding(fragments::specs::Held::reached))]
pub fn whole_flag(end: u32, bytes: u64) -> u32
    ensures { TellsWhole end bytes result }
{
    u32::from(end != 0 && bytes == u64::from(end))
}
