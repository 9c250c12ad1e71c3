// The entries for Rattle that finish a macroblock: over the record that holds the three lent planes, as in the Rust. Each takes the record apart
// and calls the function of the same name on plain slices.
// The names are the Rust's, and each takes what its like in `reconstruction` does: hence three, and three from levels.
#![tactic(auto)]

ghost use Rattle.std.specs.Prelude.{◌≡◌};
ghost use Rattle.rfc6386.specs.Answer.{prediction_told};
ghost use Rattle.rfc6386.specs.Vector.{lowering_of};
ghost use Rattle.rfc6386.specs.Macroblock.{lent, whole, split, whole_pixel};
ghost use Rattle.residue.specs.Reconstruction.{whole_finished, split_finished};

mod from_levels;

use entries::planes::ReferencePlanes;
pub use from_levels::{
    reconstruct_inter_mb_from_levels, reconstruct_inter_mb_whole_pixel_from_levels,
    reconstruct_split_mv_mb_from_levels,
};
use numbers::Refusal;
use rfc6386::{FilterSet, Mv, ReconstructedMb};

pub fn reconstruct_inter_mb_whole_pixel<'a>(
    reference: ReferencePlanes<'a>,
    mb_col: usize,
    mb_row: usize,
    luma_mv: Mv,
    full_pixel: bool,
    mb_skip_coeff: bool,
    coefficients: &'a [i16],
) -> Result<ReconstructedMb, Refusal>
    ensures { prediction_told result ≡ whole_finished mb_skip_coeff coefficients.now (whole_pixel (lowering_of full_pixel) (lent reference.entry.y.now reference.entry.u.now reference.entry.v.now (record { y_stride = reference.entry.y_stride; u_stride = reference.entry.u_stride; v_stride = reference.entry.v_stride; mb_cols = reference.entry.mb_cols; mb_rows = reference.entry.mb_rows })) mb_col mb_row luma_mv) }
{
    reconstruction::reconstruct_inter_mb_whole_pixel(
        reference.y,
        reference.u,
        reference.v,
        reference.sizes(),
        mb_col,
        mb_row,
        luma_mv,
        full_pixel,
        mb_skip_coeff,
        coefficients,
    )
}

pub fn reconstruct_inter_mb<'a>(
    reference: ReferencePlanes<'a>,
    mb_col: usize,
    mb_row: usize,
    luma_mv: Mv,
    full_pixel: bool,
    set: FilterSet,
    mb_skip_coeff: bool,
    coefficients: &'a [i16],
) -> Result<ReconstructedMb, Refusal>
    ensures { prediction_told result ≡ whole_finished mb_skip_coeff coefficients.now (whole set (lowering_of full_pixel) (lent reference.entry.y.now reference.entry.u.now reference.entry.v.now (record { y_stride = reference.entry.y_stride; u_stride = reference.entry.u_stride; v_stride = reference.entry.v_stride; mb_cols = reference.entry.mb_cols; mb_rows = reference.entry.mb_rows })) mb_col mb_row luma_mv) }
{
    reconstruction::reconstruct_inter_mb(
        reference.y,
        reference.u,
        reference.v,
        reference.sizes(),
        mb_col,
        mb_row,
        luma_mv,
        full_pixel,
        set,
        mb_skip_coeff,
        coefficients,
    )
}

pub fn reconstruct_split_mv_mb<'a>(
    reference: ReferencePlanes<'a>,
    mb_col: usize,
    mb_row: usize,
    split_luma_mvs: [Mv; 16],
    full_pixel: bool,
    set: FilterSet,
    mb_skip_coeff: bool,
    coefficients: &'a [i16],
) -> Result<ReconstructedMb, Refusal>
    ensures { prediction_told result ≡ split_finished mb_skip_coeff coefficients.now (split set (lowering_of full_pixel) (lent reference.entry.y.now reference.entry.u.now reference.entry.v.now (record { y_stride = reference.entry.y_stride; u_stride = reference.entry.u_stride; v_stride = reference.entry.v_stride; mb_cols = reference.entry.mb_cols; mb_rows = reference.entry.mb_rows })) mb_col mb_row split_luma_mvs) }
{
    reconstruction::reconstruct_split_mv_mb(
        reference.y,
        reference.u,
        reference.v,
        reference.sizes(),
        mb_col,
        mb_row,
        split_luma_mvs,
        full_pixel,
        set,
        mb_skip_coeff,
        coefficients,
    )
}
