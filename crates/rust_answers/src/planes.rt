// Records of functions on one plane.
use crate::functions::Function;
use rfc6386::Mv;
use shims::bytes::{byte_at, fill, mv_of, part, word};
use shims::planes::{shim_fetch, shim_filter_block, shim_filter_block_into};

// A plane's bytes, and its sizes.
#[derive(Clone, Copy)]
pub struct Plane<'a> {
    pub bytes: &'a [u8],
    pub stride: usize,
    pub w: usize,
    pub h: usize,
}

// A column, a row and a vector.
fn asked(r: &[u8]) -> (usize, usize, Mv) {
    let x = usize::from(word(r));
    let y = usize::from(word(part(r, 2, 2)));
    (x, y, mv_of(part(r, 4, 4)))
}

// The fetch of a square of that side; `out` has room for its answer.
fn fetch(side: u8, p: Plane<'_>, r: &[u8], out: &mut [u8]) -> bool {
    let (x, y, mv) = asked(r);
    let number = shim_fetch(side, p.bytes, p.stride, p.w, p.h, x, y, mv.row, mv.col, out);
    number == 0 && *out == *part(r, 8, out.len())
}

fn block(p: Plane<'_>, r: &[u8]) -> bool {
    let (x, y, mv) = asked(r);
    let mut out = [0u8; 16];
    let number = shim_filter_block(
        p.bytes,
        p.stride,
        p.w,
        p.h,
        x,
        y,
        mv.row,
        mv.col,
        byte_at(r, 8),
        &mut out,
    );
    number == 0 && out.as_slice() == part(r, 9, 16)
}

fn into(p: Plane<'_>, r: &[u8]) -> bool {
    let (x, y, mv) = asked(r);
    let stride = usize::from(byte_at(r, 9));
    let dst_x = usize::from(byte_at(r, 10));
    let dst_y = usize::from(byte_at(r, 11));
    let mut dst = [0u8; 96];
    fill(&mut dst, part(r, 12, 96));
    let number = shim_filter_block_into(
        &mut dst,
        stride,
        dst_x,
        dst_y,
        p.bytes,
        p.stride,
        p.w,
        p.h,
        x,
        y,
        mv.row,
        mv.col,
        byte_at(r, 8),
    );
    number == 0 && dst.as_slice() == part(r, 108, 96)
}

// Whether ours gives the record's answer; none where it takes no plane, or three.
pub fn agrees(function: Function, p: Plane<'_>, r: &[u8]) -> Option<bool> {
    let same = match function {
        Function::FetchBlockWholePixel => fetch(4, p, r, &mut [0u8; 16]),
        Function::FetchBlockHalo => fetch(9, p, r, &mut [0u8; 81]),
        Function::FetchChromaMbWholePixel => fetch(8, p, r, &mut [0u8; 64]),
        Function::FetchChromaMbHalo => fetch(13, p, r, &mut [0u8; 169]),
        Function::FetchLumaMbWholePixel => fetch(16, p, r, &mut [0u8; 256]),
        Function::FetchLumaMbHalo => fetch(21, p, r, &mut [0u8; 441]),
        Function::FilterBlock4x4 => block(p, r),
        Function::FilterBlock4x4Into => into(p, r),
        _ => return None,
    };
    Some(same)
}
