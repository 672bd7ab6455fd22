// The body of a file: the scan, and the marker that closes it.
ghost use Rattle.std.specs.Prelude.{◌+◌, ◌≤◌, ◌≡◌, length as List·length};
ghost use Rattle.laws.specs.Put.{Puts};
ghost use Rattle.builder.specs.File.{body, is_closed};

// EOI.
const CLOSING: [u8; 2] = [0xFF, 0xD9];

pub(crate) fn length(scan: &[u8]) -> usize
    requires { List·length scan.now ≤ 65536 }
    ensures { result ≡ List·length (body scan.now) }
{
    if is_closed(scan) {
        scan.len()
    } else {
        scan.len() + CLOSING.len()
    }
}

pub(crate) fn put(scan: &[u8], at: usize, out: &mut [u8])
    requires { at + List·length (body scan.now) ≤ List·length out.old }
    ensures { Puts out.old at (body scan.now) out.new }
{
    slices::put(scan, at, out);
    if !is_closed(scan) {
        slices::put(&CLOSING, at + scan.len(), out);
    }
}

// Whether the scan's last two bytes are FF D9 already.
fn is_closed(scan: &[u8]) -> bool
    ensures { result ≡ is_closed scan.now }
{
    scan.ends_with(&CLOSING)
}
