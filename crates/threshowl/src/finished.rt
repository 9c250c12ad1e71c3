// Decoded macroblocks for C: a prediction, written to the output as those of `boundary` are, and the residue added to it there. The coefficients are
// tested before anything is written, and their number, 11, is given after all others.
ghost use Rattle.std.specs.Prelude.{◌≡◌, length};
ghost use Rattle.numbers.specs.Outcome.{told};
ghost use Rattle.rfc6386.specs.Vector.{lowering_of};
ghost use Rattle.rfc6386.specs.Refusal.{or_else, code_refusal, room_refusal};
ghost use Rattle.rfc6386.specs.Macroblock.{lent, whole, split, fraction_left};
ghost use Rattle.residue.specs.Coefficients as coefficient;
ghost use Rattle.residue.specs.Coefficients.{whole_refusal, split_refusal};
ghost use Rattle.threshowl.specs.Boundary.{flag_of, codes_refusal, picture_of, whole_by, split_by};
ghost use Rattle.threshowl.specs.Finished.{Finishes, pixels_at, finished_bytes};

use crate::boundary::{codes_refusal, set_of};
use motion_vectors::{chroma_vector, lowering_of, luma_vector};
use numbers::{Refusal, number};
use outputs::{split_into, whole_into};
use prediction::fraction_left;
use refusals::{code_refusal, room_refusal};
use residue::{finish_samples, seeded, split_refusal, whole_refusal};
use rfc6386::{FilterSet, Lowering, Mv, Sizes};
use vector_bytes::mvs_of_bytes;

// Number 8 for a vector that leaves a fraction.
pub fn fraction_refusal(mv: Mv, full_pixel: bool) -> Result<(), Refusal>
    ensures { told result ≡ fraction_left (lowering_of full_pixel) mv }
{
    let luma = luma_vector(mv, full_pixel);
    let chroma = chroma_vector(mv, full_pixel);
    fraction_left(luma, chroma)
}

// Codes for a call that predicts: with a refusal after that of the output's room, where it writes nothing.
#[tactic(auto, using(crate::proofs::Laws::told_and))]
pub fn with_late(
    codes: Result<(), Refusal>,
    room: usize,
    late: Result<(), Refusal>,
) -> Result<(), Refusal>
    ensures { told result ≡ or_else (told codes) (or_else (room_refusal room) (told late)) }
{
    codes.and(room_refusal(room).and(late))
}

// Whole and split are two functions each time, as in `reconstruction`: they differ in what refuses and in Y2. The output is a slice, as C lends it.
pub fn finish_whole(out: &mut [u8], c: &[i16], skip: bool)
    requires { (length out.old ≡ 384) × (whole_refusal skip c.now ≡ 0) }
    ensures { out.new ≡ finished_bytes skip (coefficient.seeded c.now) out.old }
{
    if skip {
        return;
    }
    let x = seeded(c);
    finish_samples(out, &x);
}

fn finish_split(out: &mut [u8], c: &[i16], skip: bool)
    requires { (length out.old ≡ 384) × (split_refusal skip c.now ≡ 0) }
    ensures { out.new ≡ finished_bytes skip c.now out.old }
{
    if skip {
        return;
    }
    finish_samples(out, c);
}

// Whole prediction, finished. `fraction` is the refusal of a vector that leaves one, which comes after that of the output's room.
fn whole_finished(
    y: &[u8],
    u: &[u8],
    v: &[u8],
    sizes: Sizes,
    mb_col: usize,
    mb_row: usize,
    mv: Mv,
    lowering: Lowering,
    set: FilterSet,
    codes: Result<(), Refusal>,
    fraction: Result<(), Refusal>,
    skip: bool,
    coefficients: &[i16],
    out: &mut [u8],
) -> Result<(), Refusal>
    ensures { Finishes (whole set lowering (lent y.now u.now v.now sizes) mb_col mb_row mv) (told codes) (or_else (told fraction) (whole_refusal skip coefficients.now)) skip (coefficient.seeded coefficients.now) out.old (told result) out.new }
{
    let late = fraction.and(whole_refusal(skip, coefficients));
    let codes = with_late(codes, out.len(), late);
    whole_into(
        y, u, v, sizes, mb_col, mb_row, mv, lowering, set, codes, out,
    )?;
    finish_whole(out, coefficients, skip);
    Ok(())
}

// Split prediction, finished.
fn split_finished(
    y: &[u8],
    u: &[u8],
    v: &[u8],
    sizes: Sizes,
    mb_col: usize,
    mb_row: usize,
    mvs: [Mv; 16],
    lowering: Lowering,
    set: FilterSet,
    codes: Result<(), Refusal>,
    skip: bool,
    coefficients: &[i16],
    out: &mut [u8],
) -> Result<(), Refusal>
    ensures { Finishes (split set lowering (lent y.now u.now v.now sizes) mb_col mb_row mvs) (told codes) (split_refusal skip coefficients.now) skip coefficients.now out.old (told result) out.new }
{
    let codes = with_late(codes, out.len(), split_refusal(skip, coefficients));
    split_into(
        y, u, v, sizes, mb_col, mb_row, mvs, lowering, set, codes, out,
    )?;
    finish_split(out, coefficients, skip);
    Ok(())
}

#[unsafe(no_mangle)]
pub extern "C" fn threshowl_reconstruct_whole(
    y: &[u8],
    u: &[u8],
    v: &[u8],
    y_stride: usize,
    u_stride: usize,
    v_stride: usize,
    mb_cols: usize,
    mb_rows: usize,
    mb_col: usize,
    mb_row: usize,
    mv_row: i16,
    mv_col: i16,
    filter: u8,
    full_pixel: u8,
    skip: u8,
    coefficients: &[i16],
    out: &mut [u8],
) -> u32
    ensures { Finishes (whole_by filter full_pixel (picture_of y.now u.now v.now y_stride u_stride v_stride mb_cols mb_rows) mb_col mb_row mv_row mv_col) (code_refusal filter) (whole_refusal (flag_of skip) coefficients.now) (flag_of skip) (coefficient.seeded coefficients.now) out.old result out.new }
{
    let sizes = Sizes {
        y_stride,
        u_stride,
        v_stride,
        mb_cols,
        mb_rows,
    };
    let mv = Mv {
        row: mv_row,
        col: mv_col,
    };
    number(whole_finished(
        y,
        u,
        v,
        sizes,
        mb_col,
        mb_row,
        mv,
        lowering_of(full_pixel != 0),
        set_of(filter),
        code_refusal(filter),
        Ok(()),
        skip != 0,
        coefficients,
        out,
    ))
}

#[unsafe(no_mangle)]
pub extern "C" fn threshowl_reconstruct_whole_pixel(
    y: &[u8],
    u: &[u8],
    v: &[u8],
    y_stride: usize,
    u_stride: usize,
    v_stride: usize,
    mb_cols: usize,
    mb_rows: usize,
    mb_col: usize,
    mb_row: usize,
    mv_row: i16,
    mv_col: i16,
    full_pixel: u8,
    skip: u8,
    coefficients: &[i16],
    out: &mut [u8],
) -> u32
    ensures { Finishes (pixels_at (lowering_of (flag_of full_pixel)) (picture_of y.now u.now v.now y_stride u_stride v_stride mb_cols mb_rows) mb_col mb_row (record { row = mv_row; col = mv_col })) 0 (or_else (fraction_left (lowering_of (flag_of full_pixel)) (record { row = mv_row; col = mv_col })) (whole_refusal (flag_of skip) coefficients.now)) (flag_of skip) (coefficient.seeded coefficients.now) out.old result out.new }
{
    let sizes = Sizes {
        y_stride,
        u_stride,
        v_stride,
        mb_cols,
        mb_rows,
    };
    let mv = Mv {
        row: mv_row,
        col: mv_col,
    };
    number(whole_finished(
        y,
        u,
        v,
        sizes,
        mb_col,
        mb_row,
        mv,
        lowering_of(full_pixel != 0),
        FilterSet::Sixtap,
        Ok(()),
        fraction_refusal(mv, full_pixel != 0),
        skip != 0,
        coefficients,
        out,
    ))
}

#[unsafe(no_mangle)]
pub extern "C" fn threshowl_reconstruct_split(
    y: &[u8],
    u: &[u8],
    v: &[u8],
    y_stride: usize,
    u_stride: usize,
    v_stride: usize,
    mb_cols: usize,
    mb_rows: usize,
    mb_col: usize,
    mb_row: usize,
    vectors: &[u8],
    filter: u8,
    full_pixel: u8,
    skip: u8,
    coefficients: &[i16],
    out: &mut [u8],
) -> u32
    ensures { Finishes (split_by filter full_pixel (picture_of y.now u.now v.now y_stride u_stride v_stride mb_cols mb_rows) mb_col mb_row vectors.now) (codes_refusal filter (length vectors.now)) (split_refusal (flag_of skip) coefficients.now) (flag_of skip) coefficients.now out.old result out.new }
{
    let sizes = Sizes {
        y_stride,
        u_stride,
        v_stride,
        mb_cols,
        mb_rows,
    };
    number(split_finished(
        y,
        u,
        v,
        sizes,
        mb_col,
        mb_row,
        mvs_of_bytes(vectors),
        lowering_of(full_pixel != 0),
        set_of(filter),
        codes_refusal(filter, vectors.len()),
        skip != 0,
        coefficients,
        out,
    ))
}
