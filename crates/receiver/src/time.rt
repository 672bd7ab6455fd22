// Time stamps, which go round: differences are taken modulo 2^32.
ghost use Rattle.std.specs.Prelude.{◌≡◌};
ghost use Rattle.receiver.specs.Time as Time;

const HALF: u32 = 2_147_483_648;

pub(crate) fn is_newer(t: u32, h: u32) -> bool
    ensures { result ≡ Time.is_newer t h }
{
    (1..HALF).contains(&t.wrapping_sub(h))
}

// Whether t is older than h, or exactly 2^31 away.
#[tactic(auto, using(crate::specs::Time::ahead_wraps))]
pub(crate) fn is_behind(t: u32, h: u32) -> bool
    ensures { result ≡ Time.is_behind t h }
{
    HALF <= t.wrapping_sub(h)
}
