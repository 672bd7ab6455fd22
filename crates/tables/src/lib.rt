// The quantiser tables of a Q.
#![tactic(auto)]

mod standard;

ghost use Rattle.std.specs.Prelude.{◌/◌, ◌<◌, map, ◌≡◌, length};
ghost use Rattle.laws.specs.Within.{Between};
ghost use Rattle.replies.specs.Output.{Writes, written};
ghost use Rattle.replies.specs.Output.Decision.{write};
ghost use Rattle.replies.specs.declared.Refusal.TheVariants.{TablesOutput};
ghost use Rattle.tables.specs.MakeTables.{MakesTables};
ghost use Rattle.tables.specs.Quantiser.{made, scaled};

use crate::standard::{K1, K2};
use replies::Refusal;

// The 128 table bytes of a Q from 1 to 99, luma then chroma, into the front of `out`; answers how many they are.
pub fn make_tables(q: u32, out: &mut [u8]) -> Result<u32, Refusal>
    ensures { MakesTables q out.old (written result) out.new }
{
    match q {
        1..=50 => write_scaled(5000 / q, out),
        51..=99 => write_scaled(200 - 2 * q, out),
        _ => Err(Refusal::QNotMade),
    }
}

fn write_scaled(scale: u32, out: &mut [u8]) -> Result<u32, Refusal>
    requires { Between 1 5000 scale }
    ensures { Writes TablesOutput (write (scaled scale)) out.old (written result) out.new }
{
    if out.len() < 128 {
        return Err(Refusal::TablesOutput);
    }
    let scale = scale as u16;
    write_table(&K1, scale, &mut out[..64]);
    write_table(&K2, scale, &mut out[64..128]);
    Ok(128)
}

fn write_table(standard: &[u8; 64], scale: u16, out: &mut [u8])
    requires between { Between 1 5000 scale }
    requires len { length out.old ≡ 64 }
    ensures { out.new ≡ map (made scale) standard.now }
{
    // What an entry v comes to is above 255 where v * scale is above 25,549, and so where v is above `most`.
    let most = 25_549 / scale;
    // By the index: the prover knows nothing of `out` behind a loop over `iter_mut`.
    for (i, entry) in standard.iter().enumerate() {
        out[i] = made_entry(*entry, scale, most);
    }
}

// (v * S + 50) / 100, held within 1 to 255. A v above `most` is told first: then 16 bits hold the product, and the compiler makes
// eight at a time.
fn made_entry(v: u8, scale: u16, most: u16) -> u8
    requires { (0 < scale) × (most ≡ 25549 / scale) }
    ensures { result ≡ made scale v }
{
    if most < v as u16 {
        255
    } else {
        ((v as u16 * scale + 50) / 100).max(1) as u8
    }
}
