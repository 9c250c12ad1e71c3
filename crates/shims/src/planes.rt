// The fetches by the side of their square, 4x4 blocks, and a macroblock at whole pixels.
use crate::bytes::{flat, give};
use crate::codes::coded;
use blocks::{
    fetch_block_halo, fetch_block_whole_pixel, fetch_chroma_mb_halo, fetch_chroma_mb_whole_pixel,
    fetch_luma_mb_halo, fetch_luma_mb_whole_pixel, filter_block_4x4, filter_block_4x4_into,
};
use numbers::{Refusal, number};
use prediction::predict_inter_mb_whole_pixel;
use refusals::plane_refusal;
use rfc6386::{Fetched, Mv, Sizes};

fn fetched<const AREA: usize>(got: Result<Fetched<AREA>, Refusal>, out: &mut [u8]) -> u32 {
    give(got.map(|square| square.samples), out)
}

pub fn shim_fetch(
    size: u8,
    plane: &[u8],
    stride: usize,
    w: usize,
    h: usize,
    x: usize,
    y: usize,
    row: i16,
    col: i16,
    out: &mut [u8],
) -> u32 {
    let mv = Mv { row, col };
    match size {
        4 => fetched(fetch_block_whole_pixel(plane, stride, w, h, x, y, mv), out),
        8 => fetched(
            fetch_chroma_mb_whole_pixel(plane, stride, w, h, x, y, mv),
            out,
        ),
        9 => fetched(fetch_block_halo(plane, stride, w, h, x, y, mv), out),
        13 => fetched(fetch_chroma_mb_halo(plane, stride, w, h, x, y, mv), out),
        16 => fetched(
            fetch_luma_mb_whole_pixel(plane, stride, w, h, x, y, mv),
            out,
        ),
        21 => fetched(fetch_luma_mb_halo(plane, stride, w, h, x, y, mv), out),
        _ => 255,
    }
}

// Why a call whose code names no filter refuses: the plane is looked at before the code, and a destination after it.
fn without_code(plane: &[u8], stride: usize, w: usize, h: usize, x: usize, y: usize) -> Refusal {
    plane_refusal(plane, stride, w, h, x, y)
        .err()
        .unwrap_or(Refusal::Code)
}

pub fn shim_filter_block(
    plane: &[u8],
    stride: usize,
    w: usize,
    h: usize,
    x: usize,
    y: usize,
    row: i16,
    col: i16,
    filter: u8,
    out: &mut [u8],
) -> u32 {
    let made = match coded(filter) {
        Ok(set) => filter_block_4x4(plane, stride, w, h, x, y, Mv { row, col }, set),
        Err(_) => Err(without_code(plane, stride, w, h, x, y)),
    };
    give(made.map(|block| block.samples), out)
}

pub fn shim_filter_block_into(
    dst: &mut [u8],
    dst_stride: usize,
    dst_x: usize,
    dst_y: usize,
    plane: &[u8],
    stride: usize,
    w: usize,
    h: usize,
    x: usize,
    y: usize,
    row: i16,
    col: i16,
    filter: u8,
) -> u32 {
    number(match coded(filter) {
        Ok(set) => filter_block_4x4_into(
            dst,
            dst_stride,
            dst_x,
            dst_y,
            plane,
            stride,
            w,
            h,
            x,
            y,
            Mv { row, col },
            set,
        ),
        Err(_) => Err(without_code(plane, stride, w, h, x, y)),
    })
}

pub fn shim_whole_pixel(
    y: &[u8],
    u: &[u8],
    v: &[u8],
    y_stride: usize,
    u_stride: usize,
    v_stride: usize,
    mb_cols: usize,
    mb_rows: usize,
    mb_col: usize,
    mb_row: usize,
    mv_row: i16,
    mv_col: i16,
    full_pixel: u8,
    out: &mut [u8],
) -> u32 {
    let sizes = Sizes {
        y_stride,
        u_stride,
        v_stride,
        mb_cols,
        mb_rows,
    };
    let mv = Mv {
        row: mv_row,
        col: mv_col,
    };
    let made = predict_inter_mb_whole_pixel(y, u, v, sizes, mb_col, mb_row, mv, full_pixel != 0);
    give(made.map(|mb| flat(mb.samples)), out)
}
