// Levels times factors, kept in sixteen bits. A product that they do not hold becomes the nearest number that they do: both lie beyond the domain, so
// that one is refused where the other is. All levels of a plane are multiplied by one factor, and the first of each block then by its own: a loop
// with a test in it does not become vector code.
// A list is handed over whole with a place in it: `Part` and `Spaced`, by which the contracts speak, are of whole lists.
ghost use Rattle.std.specs.Prelude.{◌≡◌, ◌+◌, ◌*◌, ◌<◌, ◌≤◌, length};
ghost use Rattle.residue.specs.Transform.{at};
ghost use Rattle.quantisers.specs.Factors as defined;
ghost use Rattle.quantisers.specs.Levels.{block_factor};
ghost use Rattle.quantisers.specs.Inner.{sixteen, Part, Spaced};

// Thirty-two bits hold the product of any level and any factor.
pub fn dequantised(level: i16, factor: u16) -> i32
    ensures { result ≡ defined.dequantised level factor }
{
    (level as i32) * (factor as i32)
}

fn kept(level: i16, factor: u16) -> i16
    ensures { result ≡ sixteen (defined.dequantised level factor) }
{
    let p = dequantised(level, factor);
    p.clamp(-32768, 32767) as i16
}

// n levels from number i on, each STEP after the one before.
fn scale<const STEP: usize>(levels: &[i16], i: usize, n: usize, factor: u16, out: &mut [i16])
    requires step_bound { 0 < STEP }
    requires n_in_bounds { (i + STEP * n ≤ length levels.now) × (i + STEP * n ≤ length out.old) }
    ensures { Spaced out.old out.new i STEP n (λ k. sixteen (defined.dequantised (at levels.now (i + STEP * k)) factor)) }
{
    for k in 0..n {
        out[i + STEP * k] = kept(levels[i + STEP * k], factor);
    }
}

pub fn scale_blocks(levels: &[i16], i: usize, blocks: usize, dc: u16, ac: u16, out: &mut [i16])
    requires { (i + 16 * blocks ≤ length levels.now) × (i + 16 * blocks ≤ length out.old) }
    ensures { Part out.old out.new i (16 * blocks) (λ k. sixteen (defined.dequantised (at levels.now (i + k)) (block_factor dc ac k))) }
{
    scale::<1>(levels, i, 16 * blocks, ac, out);
    scale::<16>(levels, i, blocks, dc, out);
}
