// The coefficients that a macroblock's levels stand for, put into a lent list for what adds the residue: how many of them are to be taken is answered.
// Where there is another count of levels than is due none is, and for another count that is refused; with the skip flag none is worked out.
// The list is a slice whose length is asked: it may be part of a host's list, which no array is.
ghost use Rattle.std.specs.Prelude.{◌≡◌, ◌+◌, ◌≤◌, length, take};
ghost use Rattle.residue.specs.Transform.{at};
ghost use Rattle.quantisers.specs.Factors.{dequantised};
ghost use Rattle.quantisers.specs.Levels.{split_factor, whole_products, split_products};
ghost use Rattle.quantisers.specs.Inner.{sixteen, Part, WholeOffered, SplitOffered};

use crate::levels::scale_blocks;
use crate::quantiser::factors_of;
use crate::{Factors, QuantIndices};

// The 384 levels of Y, U and V, from number i on.
fn scale_planes(levels: &[i16], i: usize, f: Factors, out: &mut [i16])
    requires { (i + 384 ≤ length levels.now) × (i + 384 ≤ length out.old) }
    ensures { Part out.old out.new i 384 (λ k. sixteen (dequantised (at levels.now (i + k)) (split_factor f k))) }
{
    scale_blocks(levels, i, 16, f.y_dc, f.y_ac, out);
    scale_blocks(levels, i + 256, 8, f.uv_dc, f.uv_ac, out);
}

// This one and `split_coefficients` differ in the count and in Y2, and their contracts in what is offered: a function of both would take all three.
pub fn whole_coefficients(skip: bool, levels: &[i16], q: QuantIndices, out: &mut [i16]) -> usize
    requires { length out.old ≡ 400 }
    ensures { (result ≤ length out.new) × WholeOffered skip (whole_products q levels.now) (take result out.new) }
{
    if levels.len() != 400 {
        return 0;
    }
    if skip {
        return 400;
    }
    let f = factors_of(q);
    scale_blocks(levels, 0, 1, f.y2_dc, f.y2_ac, out);
    scale_planes(levels, 16, f, out);
    400
}

pub fn split_coefficients(skip: bool, levels: &[i16], q: QuantIndices, out: &mut [i16]) -> usize
    requires { length out.old ≡ 384 }
    ensures { (result ≤ length out.new) × SplitOffered skip (split_products q levels.now) (take result out.new) }
{
    if levels.len() != 384 {
        return 0;
    }
    if skip {
        return 384;
    }
    let f = factors_of(q);
    scale_planes(levels, 0, f, out);
    384
}
