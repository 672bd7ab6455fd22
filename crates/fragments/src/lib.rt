// Fragments of a scan, and up to 64 of them held in offset order: the first of an array of 64 places. A count that says more than 64
// counts all of them, and no sum wraps, whatever the fields are.
#![tactic(auto)]

mod pair;

ghost use Rattle.std.specs.Prelude.{min, ◌&&◌, ◌≡◌, ltb, eqb, length};
ghost use Rattle.std.specs.Int.Bits.{bit_or};
ghost use Rattle.fragments.specs.Array.{Surveys, Places, PutsIn, HasNone};
ghost use Rattle.fragments.specs.Fragments as Fragments;

use pair::{follows, share};

// The part of a scan that a packet carries: `length` bytes from `offset` on; and the marker, 1 on the last of its picture and 0 on any
// other.
#[repr(C)]
#[derive(Clone, Copy, PartialEq, Eq, Default, Debug)]
pub struct Fragment {
    pub offset: u32,
    pub length: u32,
    // C's struct: any number may stand here.
    pub marker: u32,
}

// Of the fragments held: whether they are in order, whether the first begins with byte 0 of the scan, where the last ends and its
// marker, and how many bytes they have; and whether the places behind them are unused.
#[derive(Clone, Copy, Debug, PartialEq, Eq)]
pub struct Surveyed {
    pub ordered: bool,
    pub from_0: bool,
    pub stop: u64,
    pub marker: u32,
    pub bytes: u64,
    pub clear: bool,
}

// Where a fragment goes: behind the first `at` of those held; and whether it shares a byte with the one in front of that place, or is
// the same. At place 0 there is none in front, and a fragment of zeros stands for it.
#[derive(Clone, Copy, Debug, PartialEq, Eq)]
pub struct Placed {
    pub at: usize,
    pub shares: bool,
    pub same: bool,
}

// What one pass over the array tells: a loop over the first `count`, and one over the places behind them, which joins the bits of all
// numbers, of which none may be set. Neither has an early way out, so that the compiler can take several at a time. The second clause
// hands on what the array's type says, which the prover does not know of a struct's field.
pub fn survey(fragments: &[Fragment; 64], count: u32) -> Surveyed
    ensures surveys { Surveys fragments.now count result }
    ensures fragments_len { length fragments.now ≡ 64 }
{
    let n = (count as usize).min(64);
    let mut ordered = true;
    let mut bytes: u64 = 0;
    let mut last = Fragment::default();
    for f in &fragments[..n] {
        ordered &= follows(last, *f);
        bytes += f.length as u64;
        last = *f;
    }
    let mut set: u32 = 0;
    for f in &fragments[n..] {
        set |= bits(*f);
    }
    Surveyed {
        ordered,
        from_0: 0 < n && fragments[0].offset == 0,
        stop: stop(last),
        marker: last.marker,
        bytes,
        clear: set == 0,
    }
}

// Where a fragment goes among the first `count`: one pass in offset order, up to the first that begins where it ends or later.
pub fn place(fragments: &[Fragment; 64], count: u32, f: Fragment) -> Placed
    ensures { Places fragments.now count f result }
{
    let held = &fragments[..(count as usize).min(64)];
    let end = stop(f);
    let at = held
        .iter()
        .position(|g| end <= g.offset as u64)
        .unwrap_or(held.len());
    let front = held[..at].last().copied().unwrap_or_default();
    Placed {
        at,
        shares: share(f, front),
        same: f == front,
    }
}

// Puts one more at a place of the first `count`: those from there on move up. Nothing changes where there is no such place, or all 64
// are used.
#[tactic(auto, using(crate::proofs::Moved::moved_put))]
pub fn insert(fragments: &mut [Fragment; 64], count: u32, at: usize, f: Fragment)
    ensures { PutsIn fragments.old count at f fragments.new }
{
    let n = count as usize;
    if count < 64 && at <= n {
        fragments.copy_within(at..n, at + 1);
        fragments[at] = f;
    }
}

// The array with all places unused.
#[tactic(auto, unfolding(crate::specs::Array::no_fragments))]
pub fn none() -> [Fragment; 64]
    ensures { HasNone result }
{
    [Fragment::default(); 64]
}

pub(crate) fn stop(f: Fragment) -> u64
    ensures { result ≡ Fragments.stop f }
{
    f.offset as u64 + f.length as u64
}

// The bits of its numbers, together: none is set exactly where all three are 0.
fn bits(f: Fragment) -> u32
    ensures { result ≡ bit_or (bit_or f.offset f.length) f.marker }
{
    f.offset | f.length | f.marker
}
