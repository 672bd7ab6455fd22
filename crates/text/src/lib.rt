// Text that a program is handed and makes: a number, in decimal or hexadecimal digits, and the name of a picture's file.
#![tactic(auto)]

ghost use Rattle.std.specs.Prelude.{◌+◌, ◌≤◌, ◌++◌, ◌≡◌, length};
ghost use Rattle.laws.specs.Put.{PutsUpTo};
ghost use Rattle.laws.specs.Within.{Between};
ghost use Rattle.text.specs.FileName.{Names, ending};
ghost use Rattle.text.specs.Number.{TellsNumber, said_in};

// The number of a text: decimal digits, or 0x and hexadecimal ones of either case.
pub fn number(text: &[u8]) -> Option<u32>
    ensures { TellsNumber text.now result }
{
    match text {
        [b'0', b'x', digits @ ..] => said_in(16, digits),
        _ => said_in(10, text),
    }
}

// The number that digits of a base are worth, where 32 bits hold it.
fn said_in(base: u32, digits: &[u8]) -> Option<u32>
    requires { Between 2 36 base }
    ensures { result ≡ said_in base digits.now }
{
    if digits.is_empty() {
        return None;
    }
    let mut value: u32 = 0;
    for &character in digits {
        let digit = char::from(character).to_digit(base)?;
        value = value.checked_mul(base)?.checked_add(digit)?;
    }
    Some(value)
}

// Puts the name of picture `number`'s file into the front of `out`: the prefix, the number in six digits or more, and `.jpg`. Answers
// how many bytes that is; where it does not fit, nothing is put.
pub fn file_name(prefix: &[u8], number: u64, out: &mut [u8]) -> Option<usize>
    ensures { Names prefix.now number out.old result out.new }
{
    let mut buffer = [0u8; 20];
    let k = io::decimal(number, &mut buffer);
    let digits = &buffer[..k];
    // Of six zeros, those from place k on are as many as there are digits too few.
    let zeros = slices::part(b"000000", k, 6);
    if out.len() < prefix.len() + zeros.len() + digits.len() + 4 {
        None
    } else {
        Some(put_name(prefix, zeros, digits, out))
    }
}

// Puts the parts of a name one behind the other into the front of `out`, and answers how many bytes that is.
fn put_name(prefix: &[u8], zeros: &[u8], digits: &[u8], out: &mut [u8]) -> usize
    requires { length prefix.now + length zeros.now + length digits.now + 4 ≤ length out.old }
    ensures { PutsUpTo out.old 0 (prefix.now ++ ((zeros.now ++ digits.now) ++ ending)) out.new result }
{
    let at = put_on(prefix, 0, out);
    let at = put_on(zeros, at, out);
    let at = put_on(digits, at, out);
    put_on(b".jpg", at, out)
}

// Puts bytes at a place, and answers the place behind them.
fn put_on(bytes: &[u8], at: usize, out: &mut [u8]) -> usize
    requires { at + length bytes.now ≤ length out.old }
    ensures { PutsUpTo out.old at bytes.now out.new result }
{
    slices::put(bytes, at, out);
    at + bytes.len()
}
