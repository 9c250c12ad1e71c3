// Decoded macroblocks for C, from quantised levels: the coefficients that they stand for are made, and each function calls its like of `finished`
// with them.
ghost use Rattle.std.specs.Prelude.{length};
ghost use Rattle.rfc6386.specs.Vector.{lowering_of};
ghost use Rattle.rfc6386.specs.Refusal.{or_else, code_refusal};
ghost use Rattle.rfc6386.specs.Macroblock.{fraction_left};
ghost use Rattle.residue.specs.Coefficients.{seeded, whole_refusal, split_refusal};
ghost use Rattle.quantisers.specs.Levels.{whole_products, split_products};
ghost use Rattle.threshowl.specs.Boundary.{flag_of, codes_refusal, picture_of, whole_by, split_by};
ghost use Rattle.threshowl.specs.Finished.{Finishes, pixels_at, quantiser};

use crate::finished::{
    threshowl_reconstruct_split, threshowl_reconstruct_whole, threshowl_reconstruct_whole_pixel,
};
use quantisers::{QuantIndices, split_coefficients, whole_coefficients};

#[unsafe(no_mangle)]
pub extern "C" fn threshowl_reconstruct_whole_from_levels(
    y: &[u8],
    u: &[u8],
    v: &[u8],
    y_stride: usize,
    u_stride: usize,
    v_stride: usize,
    mb_cols: usize,
    mb_rows: usize,
    mb_col: usize,
    mb_row: usize,
    mv_row: i16,
    mv_col: i16,
    filter: u8,
    full_pixel: u8,
    skip: u8,
    levels: &[i16],
    y_ac_qi: i32,
    y_dc_delta: i32,
    y2_dc_delta: i32,
    y2_ac_delta: i32,
    uv_dc_delta: i32,
    uv_ac_delta: i32,
    out: &mut [u8],
) -> u32
    ensures { Finishes (whole_by filter full_pixel (picture_of y.now u.now v.now y_stride u_stride v_stride mb_cols mb_rows) mb_col mb_row mv_row mv_col) (code_refusal filter) (whole_refusal (flag_of skip) (whole_products (quantiser y_ac_qi y_dc_delta y2_dc_delta y2_ac_delta uv_dc_delta uv_ac_delta) levels.now)) (flag_of skip) (seeded (whole_products (quantiser y_ac_qi y_dc_delta y2_dc_delta y2_ac_delta uv_dc_delta uv_ac_delta) levels.now)) out.old result out.new }
{
    let indices = QuantIndices {
        y_ac_qi,
        y_dc_delta,
        y2_dc_delta,
        y2_ac_delta,
        uv_dc_delta,
        uv_ac_delta,
    };
    let mut c = [0i16; 400];
    let n = whole_coefficients(skip != 0, levels, indices, &mut c);
    threshowl_reconstruct_whole(
        y,
        u,
        v,
        y_stride,
        u_stride,
        v_stride,
        mb_cols,
        mb_rows,
        mb_col,
        mb_row,
        mv_row,
        mv_col,
        filter,
        full_pixel,
        skip,
        &c[..n],
        out,
    )
}

#[unsafe(no_mangle)]
pub extern "C" fn threshowl_reconstruct_whole_pixel_from_levels(
    y: &[u8],
    u: &[u8],
    v: &[u8],
    y_stride: usize,
    u_stride: usize,
    v_stride: usize,
    mb_cols: usize,
    mb_rows: usize,
    mb_col: usize,
    mb_row: usize,
    mv_row: i16,
    mv_col: i16,
    full_pixel: u8,
    skip: u8,
    levels: &[i16],
    y_ac_qi: i32,
    y_dc_delta: i32,
    y2_dc_delta: i32,
    y2_ac_delta: i32,
    uv_dc_delta: i32,
    uv_ac_delta: i32,
    out: &mut [u8],
) -> u32
    ensures { Finishes (pixels_at (lowering_of (flag_of full_pixel)) (picture_of y.now u.now v.now y_stride u_stride v_stride mb_cols mb_rows) mb_col mb_row (record { row = mv_row; col = mv_col })) 0 (or_else (fraction_left (lowering_of (flag_of full_pixel)) (record { row = mv_row; col = mv_col })) (whole_refusal (flag_of skip) (whole_products (quantiser y_ac_qi y_dc_delta y2_dc_delta y2_ac_delta uv_dc_delta uv_ac_delta) levels.now))) (flag_of skip) (seeded (whole_products (quantiser y_ac_qi y_dc_delta y2_dc_delta y2_ac_delta uv_dc_delta uv_ac_delta) levels.now)) out.old result out.new }
{
    let indices = QuantIndices {
        y_ac_qi,
        y_dc_delta,
        y2_dc_delta,
        y2_ac_delta,
        uv_dc_delta,
        uv_ac_delta,
    };
    let mut c = [0i16; 400];
    let n = whole_coefficients(skip != 0, levels, indices, &mut c);
    threshowl_reconstruct_whole_pixel(
        y,
        u,
        v,
        y_stride,
        u_stride,
        v_stride,
        mb_cols,
        mb_rows,
        mb_col,
        mb_row,
        mv_row,
        mv_col,
        full_pixel,
        skip,
        &c[..n],
        out,
    )
}

#[unsafe(no_mangle)]
pub extern "C" fn threshowl_reconstruct_split_from_levels(
    y: &[u8],
    u: &[u8],
    v: &[u8],
    y_stride: usize,
    u_stride: usize,
    v_stride: usize,
    mb_cols: usize,
    mb_rows: usize,
    mb_col: usize,
    mb_row: usize,
    vectors: &[u8],
    filter: u8,
    full_pixel: u8,
    skip: u8,
    levels: &[i16],
    y_ac_qi: i32,
    y_dc_delta: i32,
    y2_dc_delta: i32,
    y2_ac_delta: i32,
    uv_dc_delta: i32,
    uv_ac_delta: i32,
    out: &mut [u8],
) -> u32
    ensures { Finishes (split_by filter full_pixel (picture_of y.now u.now v.now y_stride u_stride v_stride mb_cols mb_rows) mb_col mb_row vectors.now) (codes_refusal filter (length vectors.now)) (split_refusal (flag_of skip) (split_products (quantiser y_ac_qi y_dc_delta y2_dc_delta y2_ac_delta uv_dc_delta uv_ac_delta) levels.now)) (flag_of skip) (split_products (quantiser y_ac_qi y_dc_delta y2_dc_delta y2_ac_delta uv_dc_delta uv_ac_delta) levels.now) out.old result out.new }
{
    let indices = QuantIndices {
        y_ac_qi,
        y_dc_delta,
        y2_dc_delta,
        y2_ac_delta,
        uv_dc_delta,
        uv_ac_delta,
    };
    let mut c = [0i16; 384];
    let n = split_coefficients(skip != 0, levels, indices, &mut c);
    threshowl_reconstruct_split(
        y,
        u,
        v,
        y_stride,
        u_stride,
        v_stride,
        mb_cols,
        mb_rows,
        mb_col,
        mb_row,
        vectors,
        filter,
        full_pixel,
        skip,
        &c[..n],
        out,
    )
}
