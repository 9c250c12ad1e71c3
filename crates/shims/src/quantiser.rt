// The factors of a macroblock.
use quantisers::{QuantIndices, factors_of};

// 0 and 1 ask for those of Y, 2 and 3 for those of Y2, 4 and 5 for those of chroma, DC before AC; any other gives 0.
pub fn shim_factor(
    which: u8,
    y_ac_qi: i32,
    y_dc_delta: i32,
    y2_dc_delta: i32,
    y2_ac_delta: i32,
    uv_dc_delta: i32,
    uv_ac_delta: i32,
) -> u16 {
    let f = factors_of(QuantIndices {
        y_ac_qi,
        y_dc_delta,
        y2_dc_delta,
        y2_ac_delta,
        uv_dc_delta,
        uv_ac_delta,
    });
    match which {
        0 => f.y_dc,
        1 => f.y_ac,
        2 => f.y2_dc,
        3 => f.y2_ac,
        4 => f.uv_dc,
        5 => f.uv_ac,
        _ => 0,
    }
}
