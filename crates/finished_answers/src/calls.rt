// A record's call, and whether it gives the record's answer.
use numbers::Refusal;
use quantisers::QuantIndices;
use reconstruction::{
    reconstruct_inter_mb, reconstruct_inter_mb_from_levels, reconstruct_inter_mb_whole_pixel,
    reconstruct_inter_mb_whole_pixel_from_levels, reconstruct_split_mv_mb,
    reconstruct_split_mv_mb_from_levels,
};
use rfc6386::{FilterSet, Mv, ReconstructedMb, Sizes};
use shims::bytes::{byte_at, flat, give, mvs_of, numbers_of, part};
use shims::codes::set_of;
use std::fmt;

// Whole pixels, whole and split, of coefficients and then of levels.
#[derive(Clone, Copy, Debug, PartialEq, Eq)]
pub enum Call {
    WholePixel,
    Whole,
    Split,
    WholePixelFromLevels,
    WholeFromLevels,
    SplitFromLevels,
}

// As they are declared, and as they are written of.
pub const CALLS: [Call; 6] = [
    Call::WholePixel,
    Call::Whole,
    Call::Split,
    Call::WholePixelFromLevels,
    Call::WholeFromLevels,
    Call::SplitFromLevels,
];

// A byte that asks for no call.
#[derive(Clone, Copy)]
pub struct NoCall;

// By the first byte of a record.
impl TryFrom<u8> for Call {
    type Error = NoCall;

    fn try_from(kind: u8) -> Result<Call, NoCall> {
        match kind {
            0 => Ok(Call::WholePixel),
            1 => Ok(Call::Whole),
            2 => Ok(Call::Split),
            3 => Ok(Call::WholePixelFromLevels),
            4 => Ok(Call::WholeFromLevels),
            5 => Ok(Call::SplitFromLevels),
            _ => Err(NoCall),
        }
    }
}

impl fmt::Display for Call {
    fn fmt<W: fmt::Write>(&self, f: &mut fmt::Formatter<W>) -> fmt::Result {
        let name = match self {
            Call::WholePixel => "reconstruct_inter_mb_whole_pixel",
            Call::Whole => "reconstruct_inter_mb",
            Call::Split => "reconstruct_split_mv_mb",
            Call::WholePixelFromLevels => "reconstruct_inter_mb_whole_pixel, from levels",
            Call::WholeFromLevels => "reconstruct_inter_mb, from levels",
            Call::SplitFromLevels => "reconstruct_split_mv_mb, from levels",
        };
        f.write_str(name)
    }
}

// The file's picture, which has 3 by 2 macroblocks, without gaps.
#[derive(Clone, Copy)]
pub struct Picture<'a> {
    pub y: &'a [u8],
    pub u: &'a [u8],
    pub v: &'a [u8],
}

const SIZES: Sizes = Sizes {
    y_stride: 48,
    u_stride: 24,
    v_stride: 24,
    mb_cols: 3,
    mb_rows: 2,
};

// What a record asks for.
#[derive(Clone, Copy)]
struct Asked {
    col: usize,
    row: usize,
    full_pixel: bool,
    skip: bool,
    set: FilterSet,
    indices: QuantIndices,
    // one vector alone is the first
    mvs: [Mv; 16],
    // coefficients or levels, those of Y2 first
    numbers: [i16; 400],
}

// An index is recorded with 128 added.
fn index_of(byte: u8) -> i32 {
    i32::from(byte) - 128
}

fn indices_of(s: &[u8]) -> QuantIndices {
    QuantIndices {
        y_ac_qi: index_of(byte_at(s, 0)),
        y_dc_delta: index_of(byte_at(s, 1)),
        y2_dc_delta: index_of(byte_at(s, 2)),
        y2_ac_delta: index_of(byte_at(s, 3)),
        uv_dc_delta: index_of(byte_at(s, 4)),
        uv_ac_delta: index_of(byte_at(s, 5)),
    }
}

fn asked_of(r: &[u8]) -> Asked {
    Asked {
        col: usize::from(byte_at(r, 1)),
        row: usize::from(byte_at(r, 2)),
        full_pixel: byte_at(r, 3) != 0,
        skip: byte_at(r, 4) != 0,
        set: set_of(byte_at(r, 5)),
        indices: indices_of(part(r, 6, 6)),
        mvs: mvs_of(part(r, 12, 64)),
        numbers: numbers_of(part(r, 76, 800)),
    }
}

// Split calls take the numbers of the blocks that are not Y2.
// The six take different things, so each is called by itself.
fn made(call: Call, p: Picture<'_>, a: &Asked) -> Result<ReconstructedMb, Refusal> {
    match call {
        Call::WholePixel => reconstruct_inter_mb_whole_pixel(
            p.y,
            p.u,
            p.v,
            SIZES,
            a.col,
            a.row,
            a.mvs[0],
            a.full_pixel,
            a.skip,
            &a.numbers,
        ),
        Call::Whole => reconstruct_inter_mb(
            p.y,
            p.u,
            p.v,
            SIZES,
            a.col,
            a.row,
            a.mvs[0],
            a.full_pixel,
            a.set,
            a.skip,
            &a.numbers,
        ),
        Call::Split => reconstruct_split_mv_mb(
            p.y,
            p.u,
            p.v,
            SIZES,
            a.col,
            a.row,
            a.mvs,
            a.full_pixel,
            a.set,
            a.skip,
            &a.numbers[16..],
        ),
        Call::WholePixelFromLevels => reconstruct_inter_mb_whole_pixel_from_levels(
            p.y,
            p.u,
            p.v,
            SIZES,
            a.col,
            a.row,
            a.mvs[0],
            a.full_pixel,
            a.skip,
            &a.numbers,
            a.indices,
        ),
        Call::WholeFromLevels => reconstruct_inter_mb_from_levels(
            p.y,
            p.u,
            p.v,
            SIZES,
            a.col,
            a.row,
            a.mvs[0],
            a.full_pixel,
            a.set,
            a.skip,
            &a.numbers,
            a.indices,
        ),
        Call::SplitFromLevels => reconstruct_split_mv_mb_from_levels(
            p.y,
            p.u,
            p.v,
            SIZES,
            a.col,
            a.row,
            a.mvs,
            a.full_pixel,
            a.set,
            a.skip,
            &a.numbers[16..],
            a.indices,
        ),
    }
}

// Whether ours gives the record's answer: its number, and its samples, zeros where it refuses.
pub fn agrees(call: Call, p: Picture<'_>, r: &[u8]) -> bool {
    let mut out = [0u8; 384];
    let number = give(made(call, p, &asked_of(r)).map(flat), &mut out);
    number == u32::from(byte_at(r, 876)) && out.as_slice() == part(r, 877, 384)
}
