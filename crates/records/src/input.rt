// Records read from an input.
ghost use Rattle.std.specs.Prelude.{◌≡◌, length, is_ok};
ghost use Rattle.records.specs.Reading.{TakesNext, ReadsRecord, EndsRecord};

use crate::{Taken, length, take};
use state::Receiver;
use std::io;
use std::io::Read;

// The longest record: its length, and the longest packet.
pub const LONGEST: usize = 65537;

// Reads the next record into the front of the buffer, and takes it. A read that fails is told, and an end like any other: what came
// before it is taken.
pub fn take_next<R: Read>(
    input: &mut R,
    receiver: Receiver,
    area: &mut [u8],
    buffer: &mut [u8; LONGEST],
) -> (Taken, io::Result<()>)
    ensures { TakesNext (R.remaining input.old) receiver area.old buffer.old buffer.new result.0 (is_ok result.1) area.new (R.remaining input.new) }
{
    let (n, read) = read_record(input, buffer);
    (take(receiver, area, &buffer[..n]), read)
}

// Reads until the record is all there, the input ends or a read fails, and answers how many bytes came: where `read_exact` fails, it
// does not tell how many.
fn read_record<R: Read>(input: &mut R, buffer: &mut [u8]) -> (usize, io::Result<()>)
    requires { length buffer.old ≡ 65537 }
    ensures part { ReadsRecord (R.remaining input.old) buffer.old result.0 buffer.new (R.remaining input.new) }
    ensures end { EndsRecord (is_ok result.1) result.0 buffer.new (R.remaining input.new) }
{
    let mut done = 0;
    loop {
        // The length field's end first, and then the packet's.
        let end = length(&buffer[..done]);
        if end <= done {
            return (done, Ok(()));
        }
        match input.read(&mut buffer[done..end]) {
            Ok(0) => return (done, Ok(())),
            Ok(n) => done += n,
            Err(error) => return (done, Err(error)),
        }
    }
}
