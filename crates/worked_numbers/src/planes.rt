// The calls on one plane: the six fetches and `filter_block_4x4`, with the vector zero.
use crate::say::square;
use blocks::{
    fetch_block_halo, fetch_block_whole_pixel, fetch_chroma_mb_halo, fetch_chroma_mb_whole_pixel,
    fetch_luma_mb_halo, fetch_luma_mb_whole_pixel, filter_block_4x4,
};
use rfc6386::{FilterSet, Mv};
use std::io;

// A plane, the sizes that are said of it, and a place in it.
#[derive(Clone, Copy)]
struct Asked<'a> {
    plane: &'a [u8],
    stride: usize,
    w: usize,
    h: usize,
    x: usize,
    y: usize,
}

const ZERO: Mv = Mv { row: 0, col: 0 };

// The six answer with arrays of six lengths, so that no list has them all, and each is called by itself.
fn blocks(rt: &HostRuntime, a: Asked<'_>) -> io::Result<()> {
    let block = fetch_block_whole_pixel(a.plane, a.stride, a.w, a.h, a.x, a.y, ZERO);
    let halo = fetch_block_halo(a.plane, a.stride, a.w, a.h, a.x, a.y, ZERO);
    let set = FilterSet::Sixtap;
    let filtered = filter_block_4x4(a.plane, a.stride, a.w, a.h, a.x, a.y, ZERO, set);
    let block = square(block.map(|got| got.samples));
    let halo = square(halo.map(|got| got.samples));
    let filtered = square(filtered.map(|made| made.samples));
    print!(rt; " block {block}, its halo {halo}, filtered {filtered}")
}

fn chroma(rt: &HostRuntime, a: Asked<'_>) -> io::Result<()> {
    let block = fetch_chroma_mb_whole_pixel(a.plane, a.stride, a.w, a.h, a.x, a.y, ZERO);
    let halo = fetch_chroma_mb_halo(a.plane, a.stride, a.w, a.h, a.x, a.y, ZERO);
    let block = square(block.map(|got| got.samples));
    let halo = square(halo.map(|got| got.samples));
    print!(rt; ", chroma {block}, its halo {halo}")
}

fn luma(rt: &HostRuntime, a: Asked<'_>) -> io::Result<()> {
    let block = fetch_luma_mb_whole_pixel(a.plane, a.stride, a.w, a.h, a.x, a.y, ZERO);
    let halo = fetch_luma_mb_halo(a.plane, a.stride, a.w, a.h, a.x, a.y, ZERO);
    let block = square(block.map(|got| got.samples));
    let halo = square(halo.map(|got| got.samples));
    println!(rt; ", luma {block}, its halo {halo}")
}

fn every(
    rt: &HostRuntime,
    plane: &[u8],
    stride: usize,
    w: usize,
    h: usize,
    x: usize,
    y: usize,
) -> io::Result<()> {
    let asked = Asked {
        plane,
        stride,
        w,
        h,
        x,
        y,
    };
    print!(rt;
        "{w} by {h} samples, stride {stride}, at {x} {y}, bytes {}:",
        plane.len()
    )?;
    blocks(rt, asked)?;
    chroma(rt, asked)?;
    luma(rt, asked)
}

fn widths(rt: &HostRuntime) -> io::Result<()> {
    let long = [200u8; 16384];
    every(rt, &[200u8; 1], 1, 1, 1, 0, 0)?;
    every(rt, &[200u8; 1], 1, 0, 1, 0, 0)?;
    every(rt, &long, 16384, 16384, 1, 16383, 0)?;
    every(rt, &long[..16383], 16384, 16384, 1, 0, 0)?;
    every(rt, &long, 16385, 16385, 1, 0, 0)
}

fn heights(rt: &HostRuntime) -> io::Result<()> {
    let long = [200u8; 16384];
    every(rt, &[200u8; 1], 1, 1, 0, 0, 0)?;
    every(rt, &long, 1, 1, 16384, 0, 16383)?;
    every(rt, &long[..16383], 1, 1, 16384, 0, 0)?;
    every(rt, &long, 1, 1, 16385, 0, 0)
}

fn strides(rt: &HostRuntime) -> io::Result<()> {
    let row = [200u8; 8];
    every(rt, &row, 32768, 4, 1, 0, 0)?;
    every(rt, &row, 32769, 4, 1, 0, 0)?;
    every(rt, &row, 3, 4, 1, 0, 0)?;
    every(rt, &row, 5, 3, 2, 0, 0)?;
    every(rt, &row[..7], 5, 3, 2, 0, 0)
}

fn places(rt: &HostRuntime) -> io::Result<()> {
    let two_rows = [200u8; 8];
    every(rt, &two_rows, 5, 3, 2, 2, 1)?;
    every(rt, &two_rows, 5, 3, 2, 3, 1)?;
    every(rt, &two_rows, 5, 3, 2, 2, 2)?;
    every(rt, &two_rows, 5, 3, 2, 18446744073709551615, 0)
}

// Of several faults the one with the lowest number counts.
fn together(rt: &HostRuntime) -> io::Result<()> {
    every(rt, b"", 32769, 0, 1, 9, 0)?;
    every(rt, b"", 3, 4, 1, 9, 0)?;
    every(rt, &[200u8; 3], 4, 4, 1, 9, 0)
}

pub fn all(rt: &HostRuntime) -> io::Result<()> {
    widths(rt)?;
    heights(rt)?;
    strides(rt)?;
    places(rt)?;
    together(rt)
}
