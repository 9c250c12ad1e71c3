// C functions for tests, and no part of the product: each hands on to the function of its name in `shims`, which says what it does. tests/oracle
// compares them with the Rust, and tests/rfc with the RFC's.
#![tactic(auto)]

use shims::{filtering, planes, quantiser, vectors};

#[unsafe(no_mangle)]
pub extern "C" fn shim_vector(which: u8, row: i16, col: i16, out: &mut [u8]) -> u32 {
    vectors::shim_vector(which, row, col, out)
}

#[unsafe(no_mangle)]
pub extern "C" fn shim_split_chroma(vectors: &[u8], out: &mut [u8]) -> u32 {
    vectors::shim_split_chroma(vectors, out)
}

#[unsafe(no_mangle)]
pub extern "C" fn shim_interp(filter: u8, k: usize, support: &[u8], out: &mut [u8]) -> u32 {
    filtering::shim_interp(filter, k, support, out)
}

#[unsafe(no_mangle)]
pub extern "C" fn shim_sixtap(
    width: u8,
    halo: &[u8],
    mx: usize,
    my: usize,
    filter: u8,
    out: &mut [u8],
) -> u32 {
    filtering::shim_sixtap(width, halo, mx, my, filter, out)
}

#[unsafe(no_mangle)]
pub extern "C" fn shim_fetch(
    size: u8,
    plane: &[u8],
    stride: usize,
    w: usize,
    h: usize,
    x: usize,
    y: usize,
    row: i16,
    col: i16,
    out: &mut [u8],
) -> u32 {
    planes::shim_fetch(size, plane, stride, w, h, x, y, row, col, out)
}

#[unsafe(no_mangle)]
pub extern "C" fn shim_filter_block(
    plane: &[u8],
    stride: usize,
    w: usize,
    h: usize,
    x: usize,
    y: usize,
    row: i16,
    col: i16,
    filter: u8,
    out: &mut [u8],
) -> u32 {
    planes::shim_filter_block(plane, stride, w, h, x, y, row, col, filter, out)
}

#[unsafe(no_mangle)]
pub extern "C" fn shim_filter_block_into(
    dst: &mut [u8],
    dst_stride: usize,
    dst_x: usize,
    dst_y: usize,
    plane: &[u8],
    stride: usize,
    w: usize,
    h: usize,
    x: usize,
    y: usize,
    row: i16,
    col: i16,
    filter: u8,
) -> u32 {
    planes::shim_filter_block_into(
        dst, dst_stride, dst_x, dst_y, plane, stride, w, h, x, y, row, col, filter,
    )
}

#[unsafe(no_mangle)]
pub extern "C" fn shim_whole_pixel(
    y: &[u8],
    u: &[u8],
    v: &[u8],
    y_stride: usize,
    u_stride: usize,
    v_stride: usize,
    mb_cols: usize,
    mb_rows: usize,
    mb_col: usize,
    mb_row: usize,
    mv_row: i16,
    mv_col: i16,
    full_pixel: u8,
    out: &mut [u8],
) -> u32 {
    planes::shim_whole_pixel(
        y, u, v, y_stride, u_stride, v_stride, mb_cols, mb_rows, mb_col, mb_row, mv_row, mv_col,
        full_pixel, out,
    )
}

#[unsafe(no_mangle)]
pub extern "C" fn shim_factor(
    which: u8,
    y_ac_qi: i32,
    y_dc_delta: i32,
    y2_dc_delta: i32,
    y2_ac_delta: i32,
    uv_dc_delta: i32,
    uv_ac_delta: i32,
) -> u16 {
    quantiser::shim_factor(
        which,
        y_ac_qi,
        y_dc_delta,
        y2_dc_delta,
        y2_ac_delta,
        uv_dc_delta,
        uv_ac_delta,
    )
}
