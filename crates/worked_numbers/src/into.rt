// `filter_block_4x4_into` at the limits of its destination, which is all zeros before.
use crate::say::{Outcome, not_zero};
use blocks::filter_block_4x4_into;
use numbers::number;
use rfc6386::{FilterSet, Mv};
use std::io;

// The block at column blk_x of a plane of 4 by 4 samples: only at 0 to 3 it is not refused 4.
fn block(
    rt: &HostRuntime,
    dst: &mut [u8],
    stride: usize,
    x: usize,
    y: usize,
    blk_x: usize,
) -> io::Result<()> {
    let plane = [200u8; 16];
    let mv = Mv { row: 0, col: 0 };
    let set = FilterSet::Sixtap;
    let made = filter_block_4x4_into(dst, stride, x, y, &plane, 4, 4, 4, blk_x, 0, mv, set);
    let outcome = Outcome {
        number: number(made),
        samples: not_zero(dst),
    };
    println!(rt;
        "block at column {blk_x} into {} bytes, stride {stride}, at {x} {y}: {outcome}",
        dst.len()
    )
}

fn small(rt: &HostRuntime) -> io::Result<()> {
    block(rt, &mut [0u8; 16], 4, 0, 0, 0)?;
    block(rt, &mut [0u8; 15], 4, 0, 0, 0)?;
    block(rt, &mut [0u8; 16], 3, 0, 0, 0)?;
    block(rt, &mut [0u8; 16], 0, 0, 0, 0)?;
    block(rt, &mut [0u8; 0], 4, 0, 0, 0)
}

fn inner(rt: &HostRuntime) -> io::Result<()> {
    block(rt, &mut [0u8; 50], 10, 6, 1, 0)?;
    block(rt, &mut [0u8; 49], 10, 6, 1, 0)?;
    block(rt, &mut [0u8; 50], 9, 6, 1, 0)?;
    block(rt, &mut [0u8; 50], 10, 6, 1, 4)?;
    block(rt, &mut [0u8; 49], 10, 6, 1, 4)
}

fn large(rt: &HostRuntime) -> io::Result<()> {
    block(rt, &mut [0u8; 98308], 32768, 0, 0, 0)?;
    block(rt, &mut [0u8; 98311], 32769, 0, 0, 0)?;
    block(rt, &mut [0u8; 65548], 4, 0, 16383, 0)?;
    block(rt, &mut [0u8; 65552], 4, 0, 16384, 0)
}

// A sum in 64 bits would wrap here.
fn far(rt: &HostRuntime) -> io::Result<()> {
    block(rt, &mut [0u8; 50], 10, 18446744073709551612, 1, 0)?;
    block(rt, &mut [0u8; 50], 10, 18446744073709551615, 1, 0)?;
    block(rt, &mut [0u8; 50], 10, 6, 18446744073709551613, 0)?;
    block(rt, &mut [0u8; 50], 18446744073709551615, 6, 1, 0)
}

pub fn all(rt: &HostRuntime) -> io::Result<()> {
    small(rt)?;
    inner(rt)?;
    large(rt)?;
    far(rt)
}
