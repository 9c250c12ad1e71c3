// Prediction by a frame's version number, for C: so that a host hands over what stands in the frame's tag, and need not translate it. A
// reserved number is refused with 10, before every other test. `standard` chooses what full-pixel lowers: with 0 luma and chroma, with any
// other value chroma alone.
ghost use Rattle.std.specs.Prelude.{length};
ghost use Rattle.rfc6386.specs.Version.{whole_by_version, split_by_version};
ghost use Rattle.rfc6386.specs.Refusal.{count_refusal};
ghost use Rattle.vector_bytes.specs.Bytes.{vectors_of};
ghost use Rattle.outputs.specs.Output.{Left};
ghost use Rattle.threshowl.specs.Boundary.{flag_of, picture_of};

use crate::boundary::ended_number;
use numbers::Refusal;
use outputs::{split_into, whole_into};
use refusals::count_refusal;
use rfc6386::{Mv, Sizes};
use vector_bytes::mvs_of_bytes;
use versions::{lowering_by, profile_for_version};

#[unsafe(no_mangle)]
pub extern "C" fn threshowl_predict_whole_by_version(
    y: &[u8],
    u: &[u8],
    v: &[u8],
    y_stride: usize,
    u_stride: usize,
    v_stride: usize,
    mb_cols: usize,
    mb_rows: usize,
    mb_col: usize,
    mb_row: usize,
    mv_row: i16,
    mv_col: i16,
    version: u8,
    standard: u8,
    out: &mut [u8],
) -> u32
    ensures { Left (whole_by_version version (flag_of standard) (picture_of y.now u.now v.now y_stride u_stride v_stride mb_cols mb_rows) mb_col mb_row (record { row = mv_row; col = mv_col })) 0 out.old result out.new }
{
    let profile = profile_for_version(version);
    if profile.reserved {
        return u32::from(Refusal::Version);
    }
    let sizes = Sizes {
        y_stride,
        u_stride,
        v_stride,
        mb_cols,
        mb_rows,
    };
    let mv = Mv {
        row: mv_row,
        col: mv_col,
    };
    ended_number(whole_into(
        y,
        u,
        v,
        sizes,
        mb_col,
        mb_row,
        mv,
        lowering_by(profile.full_pixel, standard != 0),
        profile.set,
        Ok(()),
        out,
    ))
}

#[unsafe(no_mangle)]
pub extern "C" fn threshowl_predict_split_by_version(
    y: &[u8],
    u: &[u8],
    v: &[u8],
    y_stride: usize,
    u_stride: usize,
    v_stride: usize,
    mb_cols: usize,
    mb_rows: usize,
    mb_col: usize,
    mb_row: usize,
    vectors: &[u8],
    version: u8,
    standard: u8,
    out: &mut [u8],
) -> u32
    ensures { Left (split_by_version version (flag_of standard) (picture_of y.now u.now v.now y_stride u_stride v_stride mb_cols mb_rows) mb_col mb_row (vectors_of vectors.now)) (count_refusal 64 (length vectors.now)) out.old result out.new }
{
    let profile = profile_for_version(version);
    if profile.reserved {
        return u32::from(Refusal::Version);
    }
    let sizes = Sizes {
        y_stride,
        u_stride,
        v_stride,
        mb_cols,
        mb_rows,
    };
    ended_number(split_into(
        y,
        u,
        v,
        sizes,
        mb_col,
        mb_row,
        mvs_of_bytes(vectors),
        lowering_by(profile.full_pixel, standard != 0),
        profile.set,
        count_refusal(64, vectors.len()),
        out,
    ))
}
