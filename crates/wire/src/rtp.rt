// The RTP headers of a packet (RFC 3550).
ghost use Rattle.std.specs.Prelude.{◌-◌, ◌<◌, ◌≤◌, ◌≡◌, length};
ghost use Rattle.replies.specs.Checks.{judged};
ghost use Rattle.wire.specs.Reading.{rtp_checks};
ghost use Rattle.wire.specs.Rtp.{headers_end, dropped, padding_broken};

use crate::field::{byte_at, number_at};
use replies::Refusal;

pub(crate) fn judge(source: u32, packet: &[u8]) -> Result<(), Refusal>
    ensures { result ≡ judged (rtp_checks source packet.now) }
{
    if 2048 < packet.len() {
        return Err(Refusal::TooLong);
    }
    if packet.len() < 12 {
        return Err(Refusal::TooShort);
    }
    if byte_at(packet, 0) / 64 != 2 {
        return Err(Refusal::OtherVersion);
    }
    if byte_at(packet, 1) % 128 != 26 {
        return Err(Refusal::OtherPayload);
    }
    if number_at::<4>(packet, 8) != source {
        return Err(Refusal::OtherSource);
    }
    let end = headers_end(packet);
    if packet.len() < end {
        return Err(Refusal::TooShort);
    }
    if padding_broken(packet, end) {
        return Err(Refusal::TooShort);
    }
    Ok(())
}

// Where the CSRC entries and the extension end.
pub(crate) fn headers_end(packet: &[u8]) -> usize
    ensures { result ≡ headers_end packet.now }
{
    let first = byte_at(packet, 0);
    let csrc_end = 12 + 4 * (first % 16) as usize;
    if first / 16 % 2 == 1 {
        csrc_end + 4 + 4 * number_at::<2>(packet, csrc_end + 2) as usize
    } else {
        csrc_end
    }
}

// How many final bytes are padding.
pub(crate) fn padding(packet: &[u8]) -> usize
    requires { 0 < length packet.now }
    ensures { result ≡ dropped packet.now }
{
    if byte_at(packet, 0) / 32 % 2 == 1 {
        byte_at(packet, packet.len() - 1) as usize
    } else {
        0
    }
}

fn padding_broken(packet: &[u8], end: usize) -> bool
    requires end_value { end ≡ headers_end packet.now }
    requires in_bounds { (12 ≤ length packet.now) × (end ≤ length packet.now) }
    ensures { result ≡ padding_broken packet.now }
{
    if byte_at(packet, 0) / 32 % 2 != 1 {
        return false;
    }
    let n = padding(packet);
    n < 1 || packet.len() - end < n
}
