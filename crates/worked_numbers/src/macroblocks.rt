// The calls on a macroblock: each of the six, with the vector zero, on one picture.
use crate::say::{Outcome, macroblock};
use numbers::Refusal;
use prediction::{
    predict_inter_mb, predict_inter_mb_whole_pixel, predict_merging, predict_split_mv,
};
use rfc6386::{FilterSet, Mv, Predicted, Sizes};
use std::io;
use versions::{predict_inter_mb_by_version, predict_split_mv_by_version};

// A picture, the sizes that are said of it, and a position in it.
#[derive(Clone, Copy)]
struct Asked<'a> {
    y: &'a [u8],
    u: &'a [u8],
    v: &'a [u8],
    sizes: Sizes,
    col: usize,
    row: usize,
}

const ZERO: Mv = Mv { row: 0, col: 0 };

fn predicted(made: Result<Predicted, Refusal>) -> Outcome {
    macroblock(made.map(|mb| mb.samples))
}

// Whole calls and split calls take other vectors, so that each is called by itself.
fn whole(rt: &HostRuntime, a: Asked<'_>) -> io::Result<()> {
    let set = FilterSet::Sixtap;
    let whole = predict_inter_mb(a.y, a.u, a.v, a.sizes, a.col, a.row, ZERO, false, set);
    let pixels = predict_inter_mb_whole_pixel(a.y, a.u, a.v, a.sizes, a.col, a.row, ZERO, false);
    let by_version = predict_inter_mb_by_version(
        a.y, a.u, a.v, a.sizes, a.col, a.row, ZERO, 0, false,
    );
    let whole = predicted(whole);
    let pixels = predicted(pixels);
    let by_version = macroblock(by_version);
    print!(rt; " whole {whole}, whole pixel {pixels}, by version {by_version}")
}

fn split(rt: &HostRuntime, a: Asked<'_>) -> io::Result<()> {
    let set = FilterSet::Sixtap;
    let mvs = [ZERO; 16];
    let split = predict_split_mv(a.y, a.u, a.v, a.sizes, a.col, a.row, mvs, false, set);
    let merging = predict_merging(a.y, a.u, a.v, a.sizes, a.col, a.row, mvs, false, set);
    let by_version = predict_split_mv_by_version(
        a.y, a.u, a.v, a.sizes, a.col, a.row, mvs, 0, false,
    );
    let split = predicted(split);
    let merging = predicted(merging);
    let by_version = macroblock(by_version);
    println!(rt; ", split {split}, merging {merging}, by version {by_version}")
}

fn all_six(rt: &HostRuntime, a: Asked<'_>) -> io::Result<()> {
    let s = a.sizes;
    print!(rt;
        "{} by {} macroblocks, strides {} {} {}",
        s.mb_cols, s.mb_rows, s.y_stride, s.u_stride, s.v_stride
    )?;
    print!(rt;
        ", at {} {}, bytes {} {} {}:",
        a.col,
        a.row,
        a.y.len(),
        a.u.len(),
        a.v.len()
    )?;
    whole(rt, a)?;
    split(rt, a)
}

// One macroblock whose chroma planes are in order.
fn luma(rt: &HostRuntime, y: &[u8], y_stride: usize, col: usize, row: usize) -> io::Result<()> {
    let sizes = Sizes {
        y_stride,
        u_stride: 8,
        v_stride: 8,
        mb_cols: 1,
        mb_rows: 1,
    };
    let uv = [200u8; 64];
    all_six(
        rt,
        Asked {
            y,
            u: &uv,
            v: &uv,
            sizes,
            col,
            row,
        },
    )
}

// One whose luma plane is.
fn chroma(
    rt: &HostRuntime,
    u: &[u8],
    v: &[u8],
    u_stride: usize,
    v_stride: usize,
) -> io::Result<()> {
    let sizes = Sizes {
        y_stride: 16,
        u_stride,
        v_stride,
        mb_cols: 1,
        mb_rows: 1,
    };
    let y = [200u8; 256];
    all_six(
        rt,
        Asked {
            y: &y,
            u,
            v,
            sizes,
            col: 0,
            row: 0,
        },
    )
}

// Empty planes, at so high a column and row.
fn empty(rt: &HostRuntime, sizes: Sizes, at: usize) -> io::Result<()> {
    all_six(
        rt,
        Asked {
            y: b"",
            u: b"",
            v: b"",
            sizes,
            col: at,
            row: at,
        },
    )
}

// Empty planes, so that a picture that passes the first two tests gets 3.
fn size(rt: &HostRuntime, mb_cols: usize, mb_rows: usize) -> io::Result<()> {
    let sizes = Sizes {
        y_stride: 16384,
        u_stride: 8192,
        v_stride: 8192,
        mb_cols,
        mb_rows,
    };
    empty(rt, sizes, 0)
}

fn bytes(rt: &HostRuntime) -> io::Result<()> {
    luma(rt, &[200u8; 316], 20, 0, 0)?;
    luma(rt, &[200u8; 315], 20, 0, 0)?;
    chroma(rt, &[200u8; 78], &[200u8; 78], 10, 10)?;
    chroma(rt, &[200u8; 77], &[200u8; 78], 10, 10)?;
    chroma(rt, &[200u8; 78], &[200u8; 77], 10, 10)?;
    chroma(rt, &[200u8; 64], &[200u8; 78], 8, 10)?;
    chroma(rt, &[200u8; 63], &[200u8; 78], 8, 10)?;
    chroma(rt, &[200u8; 64], &[200u8; 77], 8, 10)?;
    chroma(rt, &[200u8; 78], &[200u8; 64], 10, 8)?;
    chroma(rt, &[200u8; 77], &[200u8; 64], 10, 8)?;
    chroma(rt, &[200u8; 78], &[200u8; 63], 10, 8)
}

fn counts(rt: &HostRuntime) -> io::Result<()> {
    size(rt, 1024, 1)?;
    size(rt, 1025, 1)?;
    size(rt, 1, 1024)?;
    size(rt, 1, 1025)?;
    size(rt, 0, 1)?;
    size(rt, 1, 0)?;
    size(rt, 18446744073709551615, 18446744073709551615)
}

fn strides(rt: &HostRuntime) -> io::Result<()> {
    luma(rt, &[200u8; 16], 32768, 0, 0)?;
    luma(rt, &[200u8; 16], 32769, 0, 0)?;
    luma(rt, &[200u8; 316], 15, 0, 0)?;
    chroma(rt, &[200u8; 8], &[200u8; 8], 32768, 32768)?;
    chroma(rt, &[200u8; 8], &[200u8; 8], 32769, 32769)?;
    chroma(rt, &[200u8; 78], &[200u8; 78], 7, 7)?;
    chroma(rt, &[200u8; 78], &[200u8; 78], 8, 7)?;
    chroma(rt, &[200u8; 78], &[200u8; 78], 7, 8)?;
    chroma(rt, &[200u8; 78], &[200u8; 78], 8, 32769)?;
    chroma(rt, &[200u8; 78], &[200u8; 78], 32769, 8)
}

fn places(rt: &HostRuntime) -> io::Result<()> {
    let y = [200u8; 256];
    luma(rt, &y, 16, 1, 0)?;
    luma(rt, &y, 16, 0, 1)?;
    luma(rt, &y, 16, 18446744073709551615, 0)?;
    luma(rt, &y[..255], 16, 1, 0)
}

// A fault of one plane comes before a higher one of another.
fn two_planes(rt: &HostRuntime) -> io::Result<()> {
    let sizes = Sizes {
        y_stride: 16,
        u_stride: 7,
        v_stride: 7,
        mb_cols: 1,
        mb_rows: 1,
    };
    empty(rt, sizes, 1)
}

fn whole_pixel(rt: &HostRuntime, row: i16, col: i16, full_pixel: bool) -> io::Result<()> {
    let sizes = Sizes {
        y_stride: 16,
        u_stride: 8,
        v_stride: 8,
        mb_cols: 1,
        mb_rows: 1,
    };
    let y = [200u8; 256];
    let uv = [200u8; 64];
    let mv = Mv { row, col };
    let made = predicted(predict_inter_mb_whole_pixel(&y, &uv, &uv, sizes, 0, 0, mv, full_pixel));
    let flag = if full_pixel { ", full-pixel" } else { "" };
    println!(rt; "whole pixel, vector ({row}, {col}){flag}: {made}")
}

fn whole_pixels(rt: &HostRuntime) -> io::Result<()> {
    whole_pixel(rt, 0, 4, false)?;
    whole_pixel(rt, 0, 4, true)?;
    whole_pixel(rt, 4, 0, false)?;
    whole_pixel(rt, 0, 2, false)?;
    whole_pixel(rt, 0, 8, false)?;
    whole_pixel(rt, -1, -1, true)
}

pub fn all(rt: &HostRuntime) -> io::Result<()> {
    bytes(rt)?;
    counts(rt)?;
    strides(rt)?;
    places(rt)?;
    two_planes(rt)?;
    whole_pixels(rt)
}
