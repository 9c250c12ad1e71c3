// The three calls. Each predicts by the function of `prediction` of that form, and finishes.
// The names are the Rust's, and so are the vectors and flags that they take: hence they are three.
ghost use Rattle.std.specs.Prelude.{◌≡◌};
ghost use Rattle.rfc6386.specs.Answer.{prediction_told};
ghost use Rattle.rfc6386.specs.Vector.{lowering_of};
ghost use Rattle.rfc6386.specs.Macroblock.{lent, whole, split, whole_pixel};
ghost use Rattle.residue.specs.Reconstruction.{whole_finished, split_finished};

use crate::finish::{finish_split, finish_whole};
use numbers::Refusal;
use prediction::{predict_inter_mb, predict_inter_mb_whole_pixel, predict_split_mv};
use rfc6386::{FilterSet, Mv, ReconstructedMb, Sizes};

pub fn reconstruct_inter_mb_whole_pixel(
    y: &[u8],
    u: &[u8],
    v: &[u8],
    sizes: Sizes,
    mb_col: usize,
    mb_row: usize,
    luma_mv: Mv,
    full_pixel: bool,
    mb_skip_coeff: bool,
    coefficients: &[i16],
) -> Result<ReconstructedMb, Refusal>
    ensures { prediction_told result ≡ whole_finished mb_skip_coeff coefficients.now (whole_pixel (lowering_of full_pixel) (lent y.now u.now v.now sizes) mb_col mb_row luma_mv) }
{
    let report = predict_inter_mb_whole_pixel(y, u, v, sizes, mb_col, mb_row, luma_mv, full_pixel);
    finish_whole(report.map(|p| p.samples), mb_skip_coeff, coefficients)
}

pub fn reconstruct_inter_mb(
    y: &[u8],
    u: &[u8],
    v: &[u8],
    sizes: Sizes,
    mb_col: usize,
    mb_row: usize,
    luma_mv: Mv,
    full_pixel: bool,
    set: FilterSet,
    mb_skip_coeff: bool,
    coefficients: &[i16],
) -> Result<ReconstructedMb, Refusal>
    ensures { prediction_told result ≡ whole_finished mb_skip_coeff coefficients.now (whole set (lowering_of full_pixel) (lent y.now u.now v.now sizes) mb_col mb_row luma_mv) }
{
    let report = predict_inter_mb(y, u, v, sizes, mb_col, mb_row, luma_mv, full_pixel, set);
    finish_whole(report.map(|p| p.samples), mb_skip_coeff, coefficients)
}

pub fn reconstruct_split_mv_mb(
    y: &[u8],
    u: &[u8],
    v: &[u8],
    sizes: Sizes,
    mb_col: usize,
    mb_row: usize,
    split_luma_mvs: [Mv; 16],
    full_pixel: bool,
    set: FilterSet,
    mb_skip_coeff: bool,
    coefficients: &[i16],
) -> Result<ReconstructedMb, Refusal>
    ensures { prediction_told result ≡ split_finished mb_skip_coeff coefficients.now (split set (lowering_of full_pixel) (lent y.now u.now v.now sizes) mb_col mb_row split_luma_mvs) }
{
    let report = predict_split_mv(
        y,
        u,
        v,
        sizes,
        mb_col,
        mb_row,
        split_luma_mvs,
        full_pixel,
        set,
    );
    finish_split(report.map(|p| p.samples), mb_skip_coeff, coefficients)
}
