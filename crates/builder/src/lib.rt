// The file of a whole picture: its head, its scan, and the marker that closes it.
#![tactic(auto)]

mod body;

ghost use Rattle.std.specs.Prelude.{◌≤◌, ◌≡◌, length};
ghost use Rattle.replies.specs.Checks.{judged};
ghost use Rattle.replies.specs.Output.{Writes, written};
ghost use Rattle.replies.specs.Output.Decision.{write};
ghost use Rattle.replies.specs.declared.Refusal.TheVariants.{FileOutput};
ghost use Rattle.state.specs.Receiver.{header_of};
ghost use Rattle.wire.specs.Lawful.{Lawful};
ghost use Rattle.builder.specs.Building.{Builds, checks, frame_of};
ghost use Rattle.builder.specs.File.{file};

use head::Frame;
use replies::Refusal;
use state::Receiver;

// Writes the file of the receiver's picture into the front of `out`; the scan is in the receiver's area.
pub fn build(receiver: &Receiver, area: &[u8], out: &mut [u8]) -> Result<u32, Refusal>
    ensures { Builds receiver.now area.now out.old (written result) out.new }
{
    judge(receiver, area)?;
    let scan = slices::part(area, 0, receiver.end as usize);
    write_file(frame_of(receiver), &receiver.tables, scan, out)
}

// Whether there is a whole picture to build.
fn judge(receiver: &Receiver, area: &[u8]) -> Result<(), Refusal>
    ensures { result ≡ judged (checks receiver.now area.now) }
{
    state::inspect(receiver)?;
    if area.len() != receiver.room as usize {
        return Err(Refusal::AreaNotRoom);
    }
    if receiver.whole != 1 {
        return Err(Refusal::NotWhole);
    }
    Ok(())
}

// No `TryFrom`: it is for lawful fields alone.
fn frame_of(receiver: &Receiver) -> Frame
    requires { Lawful (header_of receiver.now) }
    ensures { result ≡ frame_of receiver.now }
{
    Frame {
        kind: receiver.kind as u8,
        width: receiver.width as u8,
        height: receiver.height as u8,
        interval: receiver.interval as u16,
    }
}

// The head and the body, where both fit.
fn write_file(frame: Frame, tables: &[u8; 128], scan: &[u8], out: &mut [u8]) -> Result<u32, Refusal>
    requires { length scan.now ≤ 65536 }
    ensures { Writes FileOutput (write (file frame tables.now scan.now)) out.old (written result) out.new }
{
    let head = head::length(frame.interval);
    let length = head + body::length(scan);
    if out.len() < length {
        return Err(Refusal::FileOutput);
    }
    head::put(frame, tables, out);
    body::put(scan, head, out);
    Ok(length as u32)
}
