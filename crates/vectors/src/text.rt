// Lines of text and the numbers in them.
ghost use Rattle.std.specs.Prelude.{◌<◌, ◌≤◌, IfSome, length};

use std::fmt::Display;
use std::io::Read;

// The next line of the input, without its end; none at the input's end. One that is longer than the buffer is read as several.
pub(crate) fn read_line<'a>(input: &mut impl Read, buffer: &'a mut [u8]) -> Option<&'a [u8]>
    ensures { IfSome result (λ line. length line.now ≤ length buffer.old) }
{
    let mut length = 0;
    for place in buffer.iter_mut() {
        match read_byte(input) {
            None if length == 0 => return None,
            None | Some(b'\n') => break,
            Some(byte) => {
                *place = byte;
                length += 1;
            }
        }
    }
    Some(&buffer[..length])
}

fn read_byte(input: &mut impl Read) -> Option<u8> {
    let mut byte = [0u8; 1];
    match input.read(&mut byte) {
        Ok(1) => Some(byte[0]),
        _ => None,
    }
}

// The decimal number that the line begins with, where 32 bits hold it, and what stands behind it.
pub(crate) fn number(line: &[u8]) -> Option<(u32, &[u8])>
    ensures { IfSome result (λ read. length read.1.now ≤ length line.now) }
{
    let behind = line.iter().position(|byte| !byte.is_ascii_digit());
    let (digits, rest) = line.split_at(behind.unwrap_or(line.len()));
    let value = str::from_utf8(digits).ok()?.parse().ok()?;
    Some((value, rest))
}

// The number behind one space.
pub(crate) fn next_number(line: &[u8]) -> Option<(u32, &[u8])>
    ensures { IfSome result (λ read. length read.1.now < length line.now) }
{
    number(line.strip_prefix(b" ")?)
}

// The numbers behind one space each, as many as there is room for; what stands behind them.
// Into the caller's array: the borrow checker's proof does not cover `?` on an array of any length beside a slice.
pub(crate) fn next_numbers<'a>(line: &'a [u8], numbers: &mut [u32]) -> Option<&'a [u8]> {
    let mut rest = line;
    for number in numbers.iter_mut() {
        let (value, behind) = next_number(rest)?;
        *number = value;
        rest = behind;
    }
    Some(rest)
}

// None where the line is not a word and behind it the numbers, as many as there is room for.
pub(crate) fn reads_as(line: &[u8], word: &[u8], numbers: &mut [u32]) -> Option<()> {
    let rest = next_numbers(line.strip_prefix(word)?, numbers)?;
    rest.is_empty().then_some(())
}

// What cannot be printed is passed over, here and in `main`.
pub(crate) fn write_number(rt: &impl Print, n: impl Display + Drop) {
    let _ = print!(rt; " {n}");
}

pub(crate) fn write_bytes(rt: &impl Print, bytes: &[u8]) {
    for &byte in bytes {
        write_number(rt, byte);
    }
}

// So many bytes from a place on; none where there are not so many.
pub(crate) fn write_places(rt: &impl Print, bytes: &[u8], from: u32, count: u32) -> Option<()> {
    write_bytes(rt, part(bytes, from, count)?);
    Some(())
}

// So many of the items from a place on, where there are so many.
pub(crate) fn part<T>(items: &[T], from: u32, count: u32) -> Option<&[T]> {
    let from = from as usize;
    items.get(from..from + count as usize)
}
