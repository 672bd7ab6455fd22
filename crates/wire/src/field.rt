// Numbers in a slice of bytes, most significant byte first. Past the end of the slice every byte is 0.
ghost use Rattle.std.specs.Prelude.{◌<◌, ◌≤◌, ◌≡◌};
ghost use Rattle.wire.specs.Field.{byte, field};

pub(crate) fn byte_at(s: &[u8], at: usize) -> u8
    ensures { result ≡ byte s.now at }
{
    s.get(at).copied().unwrap_or(0)
}

// The number in N bytes from a place on. The bound on a place keeps the sums from wrapping; a packet's places are far under it.
#[tactic(auto, unfolding(crate::specs::Field::field))]
pub(crate) fn number_at<const N: usize>(s: &[u8], at: usize) -> u32
    requires { (N ≤ 4) × (at < 4294967296) }
    ensures { result ≡ field s.now at N }
{
    let mut number = 0;
    // Over places and not over bytes: behind the end of the slice the number goes on with zeros.
    for i in 0..N {
        number = number * 256 + u32::from(byte_at(s, at + i));
    }
    number
}
