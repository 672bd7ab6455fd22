// The picture that a packet is for: the one held, or one that it begins.
ghost use Rattle.std.specs.Prelude.{◌≡◌, ◌||◌};
ghost use Rattle.state.specs.WellFormed.{holding_of};
ghost use Rattle.receiver.specs.Known.{numbers};
ghost use Rattle.receiver.specs.Picture as Spec;
ghost use Rattle.receiver.specs.Time.{is_newer};

use crate::time::is_newer;
use state::{Holding, Receiver};
use wire::{Header, Packet};

// Its numbers, without its fragments and tables, which are long to hand on: the receiver's, or, where the packet begins it, the packet's
// own with nothing held. `begun` stands beside them, and no Option or enum: they count in both cases. An end of 0 is not known: it is the
// number that the receiver has and is given.
#[derive(Clone, Copy)]
pub(crate) struct Numbers {
    pub(crate) begun: bool,
    pub(crate) time: u32,
    pub(crate) header: Header,
    pub(crate) end: u32,
    pub(crate) whole: bool,
    pub(crate) count: u32,
    pub(crate) held: u32,
    pub(crate) reach: u32,
}

#[tactic(auto, unfolding(crate::specs::Picture::picture_for))]
pub(crate) fn picture_for(receiver: &Receiver, holding: Holding, said: Packet) -> Numbers
    requires { holding ≡ holding_of receiver.now }
    ensures { result ≡ numbers (Spec.starts receiver.now said) (Spec.picture_for receiver.now said) }
{
    if starts(receiver.picture == 0, receiver.time, said.time) {
        return Numbers {
            begun: true,
            time: said.time,
            header: said.header,
            end: 0,
            whole: false,
            count: 0,
            held: 0,
            reach: 0,
        };
    }
    Numbers {
        begun: false,
        time: receiver.time,
        header: Header::from(receiver),
        end: receiver.end,
        whole: receiver.whole == 1,
        count: receiver.fragment_count,
        held: holding.held,
        reach: holding.reach,
    }
}

// Whether a packet of a time stamp starts a picture, by whether none is held, and by the time stamp of the one held.
fn starts(none: bool, held: u32, time: u32) -> bool
    ensures { result ≡ (none || is_newer time held) }
{
    none || is_newer(time, held)
}
