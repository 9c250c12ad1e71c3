// Prediction for C: numbers, bytes, and an output of 384 bytes that a refused call leaves as it was. A slice is a pointer and a length.
ghost use Rattle.std.specs.Prelude.{◌≡◌, length};
ghost use Rattle.numbers.specs.Outcome.{told};
ghost use Rattle.rfc6386.specs.Refusal.{code_refusal};
ghost use Rattle.outputs.specs.Output.{Left, ended_told};
ghost use Rattle.threshowl.specs.Boundary.{set_of, codes_refusal, picture_of, whole_by, split_by};

use motion_vectors::{are_one, lowering_of};
use numbers::Refusal;
use outputs::{Ended, quarters_into, split_into, whole_into};
use refusals::{code_refusal, count_refusal};
use rfc6386::{FilterSet, Mv, Sizes};
use vector_bytes::mvs_of_bytes;

// Not a TryFrom: a code that there is not still has a table, since its refusal comes after those of the planes.
pub fn set_of(filter: u8) -> FilterSet
    ensures { result ≡ set_of filter }
{
    match filter {
        0 => FilterSet::Sixtap,
        _ => FilterSet::Bilinear,
    }
}

pub fn codes_refusal(filter: u8, count: usize) -> Result<(), Refusal>
    ensures { told result ≡ codes_refusal filter count }
{
    code_refusal(filter).and(count_refusal(64, count))
}

// The number of a call that writes its samples to an output.
pub fn ended_number(ended: Result<Ended, Refusal>) -> u32
    ensures { result ≡ (ended_told ended).number }
{
    match ended {
        Ok(_) => 0,
        Err(refusal) => u32::from(refusal),
    }
}

#[unsafe(no_mangle)]
pub extern "C" fn threshowl_predict_whole(
    y: &[u8],
    u: &[u8],
    v: &[u8],
    y_stride: usize,
    u_stride: usize,
    v_stride: usize,
    mb_cols: usize,
    mb_rows: usize,
    mb_col: usize,
    mb_row: usize,
    mv_row: i16,
    mv_col: i16,
    filter: u8,
    full_pixel: u8,
    out: &mut [u8],
) -> u32
    ensures { Left (whole_by filter full_pixel (picture_of y.now u.now v.now y_stride u_stride v_stride mb_cols mb_rows) mb_col mb_row mv_row mv_col) (code_refusal filter) out.old result out.new }
{
    let sizes = Sizes {
        y_stride,
        u_stride,
        v_stride,
        mb_cols,
        mb_rows,
    };
    let mv = Mv {
        row: mv_row,
        col: mv_col,
    };
    ended_number(whole_into(
        y,
        u,
        v,
        sizes,
        mb_col,
        mb_row,
        mv,
        lowering_of(full_pixel != 0),
        set_of(filter),
        code_refusal(filter),
        out,
    ))
}

#[unsafe(no_mangle)]
pub extern "C" fn threshowl_predict_split(
    y: &[u8],
    u: &[u8],
    v: &[u8],
    y_stride: usize,
    u_stride: usize,
    v_stride: usize,
    mb_cols: usize,
    mb_rows: usize,
    mb_col: usize,
    mb_row: usize,
    vectors: &[u8],
    filter: u8,
    full_pixel: u8,
    out: &mut [u8],
) -> u32
    ensures { Left (split_by filter full_pixel (picture_of y.now u.now v.now y_stride u_stride v_stride mb_cols mb_rows) mb_col mb_row vectors.now) (codes_refusal filter (length vectors.now)) out.old result out.new }
{
    let sizes = Sizes {
        y_stride,
        u_stride,
        v_stride,
        mb_cols,
        mb_rows,
    };
    ended_number(split_into(
        y,
        u,
        v,
        sizes,
        mb_col,
        mb_row,
        mvs_of_bytes(vectors),
        lowering_of(full_pixel != 0),
        set_of(filter),
        codes_refusal(filter, vectors.len()),
        out,
    ))
}

// Split prediction, by the whole call where the sixteen vectors are one.
#[unsafe(no_mangle)]
pub extern "C" fn threshowl_predict_merging(
    y: &[u8],
    u: &[u8],
    v: &[u8],
    y_stride: usize,
    u_stride: usize,
    v_stride: usize,
    mb_cols: usize,
    mb_rows: usize,
    mb_col: usize,
    mb_row: usize,
    vectors: &[u8],
    filter: u8,
    full_pixel: u8,
    out: &mut [u8],
) -> u32
    ensures { Left (split_by filter full_pixel (picture_of y.now u.now v.now y_stride u_stride v_stride mb_cols mb_rows) mb_col mb_row vectors.now) (codes_refusal filter (length vectors.now)) out.old result out.new }
{
    let mvs = mvs_of_bytes(vectors);
    if vectors.len() == 64 && are_one(mvs) {
        let first = mvs[0];
        return threshowl_predict_whole(
            y, u, v, y_stride, u_stride, v_stride, mb_cols, mb_rows, mb_col, mb_row, first.row,
            first.col, filter, full_pixel, out,
        );
    }
    threshowl_predict_split(
        y, u, v, y_stride, u_stride, v_stride, mb_cols, mb_rows, mb_col, mb_row, vectors, filter,
        full_pixel, out,
    )
}

// Split prediction that merges its luma by quarters.
#[unsafe(no_mangle)]
pub extern "C" fn threshowl_predict_quarters(
    y: &[u8],
    u: &[u8],
    v: &[u8],
    y_stride: usize,
    u_stride: usize,
    v_stride: usize,
    mb_cols: usize,
    mb_rows: usize,
    mb_col: usize,
    mb_row: usize,
    vectors: &[u8],
    filter: u8,
    full_pixel: u8,
    out: &mut [u8],
) -> u32
    ensures { Left (split_by filter full_pixel (picture_of y.now u.now v.now y_stride u_stride v_stride mb_cols mb_rows) mb_col mb_row vectors.now) (codes_refusal filter (length vectors.now)) out.old result out.new }
{
    let sizes = Sizes {
        y_stride,
        u_stride,
        v_stride,
        mb_cols,
        mb_rows,
    };
    let codes = codes_refusal(filter, vectors.len());
    ended_number(quarters_into(
        y,
        u,
        v,
        sizes,
        mb_col,
        mb_row,
        mvs_of_bytes(vectors),
        full_pixel != 0,
        set_of(filter),
        codes,
        out,
    ))
}
