// The receiver's step: what a packet makes of a receiver and of the scan area that is lent with it.
#![tactic(auto)]

mod change;
mod first_packet;
mod judge;
mod picture;
mod time;

ghost use Rattle.std.specs.Prelude.{◌≡◌, length, if◌then◌else◌, Ok};
ghost use Rattle.laws.specs.Put.{put};
ghost use Rattle.replies.specs.Refusal.{number};
ghost use Rattle.replies.specs.Reply as Reply;
ghost use Rattle.state.specs.WellFormed.{Inspects};
ghost use Rattle.wire.specs.Reading.{scan_in};
ghost use Rattle.receiver.specs.Known.{Admitted, Decides};
ghost use Rattle.receiver.specs.Picture.{picture_for};
ghost use Rattle.receiver.specs.Step as Step;

use crate::change::take;
use crate::judge::Arrival;
use crate::picture::picture_for;
use replies::{HELD, Refusal, WHOLE};
use state::{Answer, Holding, Receiver};

// What the step answers, and the next receiver.
#[derive(Clone, Copy)]
pub struct Received {
    pub answer: Answer,
    pub receiver: Receiver,
}

// Takes a packet into the picture that it is for. All is decided first; then the area and the receiver are written, or neither is.
fn step(receiver: &mut Receiver, area: &mut [u8], packet: &[u8]) -> Answer
    ensures { Step.Receives receiver.old area.old packet.now (record { answer = result; receiver = receiver.new }) area.new }
{
    match state::inspect(receiver) {
        Ok(holding) => match decide(receiver, holding, area, packet) {
            Ok((arrival, at)) => accept(receiver, arrival, at, area),
            Err(refusal) => refused(refusal, holding.held),
        },
        Err(refusal) => refused(refusal, 0),
    }
}

// What C is answered where nothing changes.
fn refused(refusal: Refusal, held: u32) -> Answer
    ensures { result ≡ record { reply = number refusal; held = held } }
{
    Answer {
        reply: refusal.number(),
        held,
    }
}

// The step on a copy.
pub fn receive(receiver: Receiver, area: &mut [u8], packet: &[u8]) -> Received
    ensures { Step.Receives receiver area.old packet.now result area.new }
{
    let mut next = receiver;
    let answer = step(&mut next, area, packet);
    Received {
        answer,
        receiver: next,
    }
}

// What a well-formed receiver that holds this decides of a packet: why nothing changes, or what has arrived, and where its fragment goes.
fn decide<'a>(
    receiver: &Receiver,
    holding: Holding,
    area: &[u8],
    packet: &'a [u8],
) -> Result<(Arrival<'a>, usize), Refusal>
    requires inspected { Inspects receiver.now (Ok holding) }
    requires fragments_len { length receiver.now.fragments ≡ 64 }
    ensures { Decides receiver.now area.now packet.now result }
{
    if area.len() != receiver.room as usize {
        return Err(Refusal::AreaNotRoom);
    }
    let reading = wire::read(receiver.source, packet);
    // a form that stays: `let .. else` takes the reader's answer apart, and does not name the refusal
    let Ok(said) = reading else {
        return Err(reading.unwrap_err());
    };
    let arrival = Arrival {
        packet,
        said,
        picture: picture_for(receiver, holding, said),
    };
    let at = arrival.judge(receiver, area)?;
    Ok((arrival, at))
}

// The step with an accepted packet, whose fragment goes to a place of its picture.
fn accept(receiver: &mut Receiver, arrival: Arrival, at: usize, area: &mut [u8]) -> Answer
    requires admitted { Admitted receiver.old arrival at }
    requires lent { length area.old ≡ receiver.old.room }
    ensures value { record { answer = result; receiver = receiver.new } ≡ Step.took_in (Step.taken (picture_for receiver.old arrival.entry.said) arrival.entry.packet.now arrival.entry.said) }
    ensures area_after { area.new ≡ put area.old arrival.entry.said.offset (scan_in arrival.entry.packet.now arrival.entry.said) }
{
    let said = arrival.said;
    let held = arrival.picture.held + said.scan.length as u32;
    take(receiver, arrival, at, held);
    let reply = reply_with(receiver.whole == 1);
    slices::put(wire::scan(arrival.packet, said), said.offset as usize, area);
    Answer { reply, held }
}

// The reply to an accepted packet, by whether its picture is whole.
fn reply_with(whole: bool) -> u32
    ensures { result ≡ (if whole then Reply.whole else Reply.held) }
{
    if whole { WHOLE } else { HELD }
}
