// Blocks with only their first number nonzero: a transform then gives one number sixteen times.
ghost use Rattle.std.specs.Prelude.{◌≡◌, true, ◌↔◌, pos};
ghost use Rattle.residue.specs.Transform.{inverse_wht};
ghost use Rattle.residue.specs.Inner.{OnlyFirst, Bounded};

use crate::transform::inverse_wht_4x4;

// 0 only where both are 0.
fn either(a: i16, b: i16) -> i16
    ensures { (result ≡ pos 0) ↔ ((a ≡ pos 0) × (b ≡ pos 0)) }
{
    a | b
}

// All but the first are 0. Every element is looked at, with no way out, and so with one jump at the end.
pub fn only_first(x: [i16; 16]) -> bool
    ensures { (result ≡ true) ↔ OnlyFirst x }
{
    let mut seen: i16 = 0;
    for i in 1..16 {
        seen = either(seen, x[i]);
    }
    seen == 0
}

pub fn inverse_wht_quick(x: [i16; 16]) -> [i16; 16]
    requires { Bounded 0 16383 x }
    ensures { result ≡ inverse_wht x }
{
    if only_first(x) {
        let v = (((x[0] as i32) + 3) >> 3) as i16;
        return [v; 16];
    }
    inverse_wht_4x4(x)
}
