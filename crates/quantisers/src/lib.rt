// Quantised levels (RFC 6386, sections 9.6 and 14.1): the two tables of steps, the six factors of a macroblock, and the coefficients that its levels
// stand for. What takes and leaves coefficients is for `reconstruction` and the boundary to C.
#![tactic(auto)]

mod coefficients;
mod levels;
mod quantiser;

// A base index, and what the other five indices have beyond it.
#[derive(Clone, Copy)]
pub struct QuantIndices {
    pub y_ac_qi: i32,
    pub y_dc_delta: i32,
    pub y2_dc_delta: i32,
    pub y2_ac_delta: i32,
    pub uv_dc_delta: i32,
    pub uv_ac_delta: i32,
}

// What a level is multiplied by: the first of its block, and any other.
#[derive(Clone, Copy)]
pub struct Factors {
    pub y_dc: u16,
    pub y_ac: u16,
    pub y2_dc: u16,
    pub y2_ac: u16,
    pub uv_dc: u16,
    pub uv_ac: u16,
}

// the factors, and a level times its factor
pub use levels::dequantised;
pub use quantiser::factors_of;

// a macroblock's coefficients
pub use coefficients::{split_coefficients, whole_coefficients};
