// Bytes that a line spells: pairs of hex digits, apart by single spaces or not at all. 10*128 spells 128 bytes of 10.
ghost use Rattle.std.specs.Prelude.{◌<◌, ◌≤◌, IfSome, length};

use crate::text::number;

// The bytes that the line spells to its end, in the front of `out`; none where the line is wrong or `out` is full.
pub(crate) fn read_hex<'a>(line: &[u8], out: &'a mut [u8]) -> Option<&'a [u8]>
    ensures { IfSome result (λ bytes. length bytes.now ≤ length out.old) }
{
    let mut rest = line;
    let mut n = 0;
    while !rest.is_empty() {
        let (byte, times, behind) = run(rest)?;
        let times = times as usize;
        out.get_mut(n..n + times)?.fill(byte);
        n += times;
        rest = behind;
    }
    Some(&out[..n])
}

// A byte, how many of it, and what stands behind.
fn run(line: &[u8]) -> Option<(u8, u32, &[u8])>
    ensures { IfSome result (λ run. length run.2.now < length line.now) }
{
    let [high, low, rest @ ..] = line.strip_prefix(b" ").unwrap_or(line) else {
        return None;
    };
    let byte = hex_digit(*high)? * 16 + hex_digit(*low)?;
    let Some(times) = rest.strip_prefix(b"*") else {
        return Some((byte, 1, rest));
    };
    let (times, rest) = number(times)?;
    Some((byte, times, rest))
}

// Capital letters alone: `to_digit` takes small ones too.
fn hex_digit(byte: u8) -> Option<u8>
    ensures { IfSome result (λ digit. digit < 16) }
{
    match byte {
        b'0'..=b'9' => Some(byte - b'0'),
        b'A'..=b'F' => Some(byte - b'A' + 10),
        _ => None,
    }
}
