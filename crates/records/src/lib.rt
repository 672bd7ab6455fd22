// Records of a stream, as RFC 4571 frames them: a length of two bytes, and a packet of so many for the receiver.
#![tactic(auto)]

mod input;
#[cfg(test)]
mod tests;

ghost use Rattle.std.specs.Prelude.{◌≤◌, ◌≡◌};
ghost use Rattle.records.specs.Framing.{TellsRecordLength};
ghost use Rattle.records.specs.Taking.{Takes};

pub use input::{LONGEST, take_next};
use state::{Answer, Receiver};

// What a stream goes on with: nothing, a record that it ends in, or a complete one, to whose packet the receiver answered this.
#[derive(Clone, Copy)]
pub enum Next {
    End,
    Cut,
    Answered(Answer),
}

// What the stream went on with, and the next receiver.
#[derive(Clone, Copy)]
pub struct Taken {
    pub came: Next,
    pub receiver: Receiver,
}

// How many bytes a record has that begins so: 2 while its length is not all there.
pub fn length(bytes: &[u8]) -> usize
    ensures told { TellsRecordLength bytes.now result }
    ensures longest { result ≤ 65537 }
{
    match bytes {
        [high, low, ..] => 2 + usize::from(u16::from_be_bytes([*high, *low])),
        _ => 2,
    }
}

// Takes the record in front of the bytes that a stream has left, which are none at its end.
pub fn take(receiver: Receiver, area: &mut [u8], bytes: &[u8]) -> Taken
    ensures { Takes receiver area.old bytes.now result area.new }
{
    if bytes.is_empty() {
        return Taken {
            came: Next::End,
            receiver,
        };
    }
    let Some(packet) = bytes.get(2..length(bytes)) else {
        return Taken {
            came: Next::Cut,
            receiver,
        };
    };
    let received = receiver::receive(receiver, area, packet);
    Taken {
        came: Next::Answered(received.answer),
        receiver: received.receiver,
    }
}
