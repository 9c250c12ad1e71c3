// Blocks of coefficients: one taken out of a list, and a whole macroblock's, with what Y2 gives in the place of each first one of Y.
ghost use Rattle.std.specs.Prelude.{◌≡◌, ◌+◌, ◌≤◌, length};
ghost use Rattle.rfc6386.specs.Raster.{tab};
ghost use Rattle.residue.specs.Transform.{at};
ghost use Rattle.residue.specs.Coefficients as coefficients;
ghost use Rattle.residue.specs.Inner.{Low};

use crate::short::inverse_wht_quick;

// N coefficients from number i on.
pub fn part_of<const N: usize>(c: &[i16], i: usize) -> [i16; N]
    requires { i + N ≤ length c.now }
    ensures { result ≡ tab N (λ k. at c.now (i + k)) }
{
    let mut out = [0i16; N];
    out.copy_from_slice(&c[i..i + N]);
    out
}

pub fn seeded(c: &[i16]) -> [i16; 384]
    requires c_len { length c.now ≡ 400 }
    requires low { Low c.now 0 16 16383 }
    ensures { result ≡ coefficients.seeded c.now }
{
    let first = inverse_wht_quick(part_of::<16>(c, 0));
    let mut out = part_of::<384>(c, 16);
    for b in 0..16 {
        out[16 * b] = first[b];
    }
    out
}
