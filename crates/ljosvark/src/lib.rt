// The C interface: thin entries over the crates below. include/ljosvark.h declares them for C.
#![tactic(auto)]

ghost use Rattle.builder.specs.Building.{Builds};
ghost use Rattle.receiver.specs.Step.{Receives};
ghost use Rattle.sender.specs.Picture.{picture};
ghost use Rattle.sender.specs.Sending.{Sends};
ghost use Rattle.state.specs.Opening.{Opens};
ghost use Rattle.tables.specs.MakeTables.{MakesTables};

use replies::{WHOLE, Written};
use sender::{Picture, Stamp};
use state::{Answer, Opened, Receiver};
use wire::Header;

#[unsafe(no_mangle)]
pub extern "C" fn lj_make_tables(q: u32, out: &mut [u8]) -> Written
    ensures { MakesTables q out.old result out.new }
{
    tables::make_tables(q, out).into()
}

#[unsafe(no_mangle)]
pub extern "C" fn lj_packet(
    kind: u32,
    q: u32,
    width: u32,
    height: u32,
    interval: u32,
    tables: &[u8],
    scan: &[u8],
    size: u32,
    start: u16,
    time: u32,
    source: u32,
    k: u32,
    out: &mut [u8],
) -> Written
    ensures { Sends
        (picture
        (record { kind = kind; q = q; width = width; height = height; interval = interval })
        tables.now
        scan.now)
        size
        (record { start = start; time = time; source = source })
        k
        out.old
        result
        out.new }
{
    let header = Header {
        kind,
        q,
        width,
        height,
        interval,
    };
    let stamp = Stamp {
        start,
        time,
        source,
    };
    let picture = Picture {
        header,
        tables,
        scan,
    };
    sender::packet(picture, size, stamp, k, out).into()
}

#[unsafe(no_mangle)]
pub extern "C" fn lj_open(source: u32, room: u32) -> Opened
    ensures { Opens source room result }
{
    state::open(source, room)
}

// The step in place: the host's own receiver becomes the next one. Again and the refusals leave it as it is: nothing to store.
#[unsafe(no_mangle)]
pub extern "C" fn lj_receive(receiver: &mut Receiver, area: &mut [u8], packet: &[u8]) -> Answer
    ensures { Receives
        receiver.old
        area.old
        packet.now
        (record { answer = result; receiver = receiver.new })
        area.new }
{
    let done = receiver::receive(*receiver, area, packet);
    if done.answer.reply <= WHOLE {
        *receiver = done.receiver;
    }
    done.answer
}

#[unsafe(no_mangle)]
pub extern "C" fn lj_build(receiver: Receiver, area: &[u8], out: &mut [u8]) -> Written
    ensures { Builds receiver area.now out.old result out.new }
{
    builder::build(&receiver, area, out).into()
}
