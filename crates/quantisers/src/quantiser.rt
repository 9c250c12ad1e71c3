// From base index and deltas to the six factors. The tables stand in a local, and a call reads one step of the list that it is lent.
ghost use Rattle.std.specs.Prelude.{◌≡◌, ◌≤◌};
ghost use Rattle.quantisers.specs.Factors as defined;

use crate::{Factors, QuantIndices};

const DC_STEPS: [u16; 128] = [
    4, 5, 6, 7, 8, 9, 10, 10, 11, 12, 13, 14, 15, 16, 17, 17, 18, 19, 20, 20, 21, 21, 22, 22, 23,
    23, 24, 25, 25, 26, 27, 28, 29, 30, 31, 32, 33, 34, 35, 36, 37, 37, 38, 39, 40, 41, 42, 43, 44,
    45, 46, 46, 47, 48, 49, 50, 51, 52, 53, 54, 55, 56, 57, 58, 59, 60, 61, 62, 63, 64, 65, 66, 67,
    68, 69, 70, 71, 72, 73, 74, 75, 76, 76, 77, 78, 79, 80, 81, 82, 83, 84, 85, 86, 87, 88, 89, 91,
    93, 95, 96, 98, 100, 101, 102, 104, 106, 108, 110, 112, 114, 116, 118, 122, 124, 126, 128, 130,
    132, 134, 136, 138, 140, 143, 145, 148, 151, 154, 157,
];

const AC_STEPS: [u16; 128] = [
    4, 5, 6, 7, 8, 9, 10, 11, 12, 13, 14, 15, 16, 17, 18, 19, 20, 21, 22, 23, 24, 25, 26, 27, 28,
    29, 30, 31, 32, 33, 34, 35, 36, 37, 38, 39, 40, 41, 42, 43, 44, 45, 46, 47, 48, 49, 50, 51, 52,
    53, 54, 55, 56, 57, 58, 60, 62, 64, 66, 68, 70, 72, 74, 76, 78, 80, 82, 84, 86, 88, 90, 92, 94,
    96, 98, 100, 102, 104, 106, 108, 110, 112, 114, 116, 119, 122, 125, 128, 131, 134, 137, 140,
    143, 146, 149, 152, 155, 158, 161, 164, 167, 170, 173, 177, 181, 185, 189, 193, 197, 201, 205,
    209, 213, 217, 221, 225, 229, 234, 239, 245, 249, 254, 259, 264, 269, 274, 279, 284,
];

// Base plus delta, which 64 bits hold, or the nearest place of a table.
fn index(base: i32, delta: i32) -> usize
    ensures { result ≡ defined.index base delta }
{
    let i = (base as i64) + (delta as i64);
    i.clamp(0, 127) as usize
}

fn step(steps: &[u16; 128], base: i32, delta: i32) -> u16
    ensures { result ≡ defined.step_at steps.now base delta }
{
    steps[index(base, delta)]
}

fn y2_ac_of(s: u16) -> u16
    requires { s ≤ 284 }
    ensures { result ≡ defined.y2_ac_of s }
{
    (s * 155 / 100).max(8)
}

fn uv_dc_of(s: u16) -> u16
    ensures { result ≡ defined.uv_dc_of s }
{
    s.min(132)
}

pub fn factors_of(q: QuantIndices) -> Factors
    ensures { result ≡ defined.factors_of q }
{
    let dc = DC_STEPS;
    let ac = AC_STEPS;
    let base = q.y_ac_qi;
    let y_dc = step(&dc, base, q.y_dc_delta);
    let y_ac = step(&ac, base, 0);
    let y2_dc = step(&dc, base, q.y2_dc_delta) * 2;
    let y2_ac = y2_ac_of(step(&ac, base, q.y2_ac_delta));
    let uv_dc = uv_dc_of(step(&dc, base, q.uv_dc_delta));
    let uv_ac = step(&ac, base, q.uv_ac_delta);
    Factors {
        y_dc,
        y_ac,
        y2_dc,
        y2_ac,
        uv_dc,
        uv_ac,
    }
}
