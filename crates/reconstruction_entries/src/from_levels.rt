// From quantised levels: each takes the record apart, and calls the function of the same name on plain slices.
ghost use Rattle.std.specs.Prelude.{◌≡◌};
ghost use Rattle.rfc6386.specs.Answer.{prediction_told};
ghost use Rattle.rfc6386.specs.Vector.{lowering_of};
ghost use Rattle.rfc6386.specs.Macroblock.{lent, whole, split, whole_pixel};
ghost use Rattle.residue.specs.Reconstruction.{whole_finished, split_finished};
ghost use Rattle.quantisers.specs.Levels.{whole_products, split_products};

use entries::planes::ReferencePlanes;
use numbers::Refusal;
use quantisers::QuantIndices;
use rfc6386::{FilterSet, Mv, ReconstructedMb};

pub fn reconstruct_inter_mb_whole_pixel_from_levels<'a>(
    reference: ReferencePlanes<'a>,
    mb_col: usize,
    mb_row: usize,
    luma_mv: Mv,
    full_pixel: bool,
    mb_skip_coeff: bool,
    levels: &'a [i16],
    indices: QuantIndices,
) -> Result<ReconstructedMb, Refusal>
    ensures { prediction_told result ≡ whole_finished mb_skip_coeff (whole_products indices levels.now) (whole_pixel (lowering_of full_pixel) (lent reference.entry.y.now reference.entry.u.now reference.entry.v.now (record { y_stride = reference.entry.y_stride; u_stride = reference.entry.u_stride; v_stride = reference.entry.v_stride; mb_cols = reference.entry.mb_cols; mb_rows = reference.entry.mb_rows })) mb_col mb_row luma_mv) }
{
    reconstruction::reconstruct_inter_mb_whole_pixel_from_levels(
        reference.y,
        reference.u,
        reference.v,
        reference.sizes(),
        mb_col,
        mb_row,
        luma_mv,
        full_pixel,
        mb_skip_coeff,
        levels,
        indices,
    )
}

pub fn reconstruct_inter_mb_from_levels<'a>(
    reference: ReferencePlanes<'a>,
    mb_col: usize,
    mb_row: usize,
    luma_mv: Mv,
    full_pixel: bool,
    set: FilterSet,
    mb_skip_coeff: bool,
    levels: &'a [i16],
    indices: QuantIndices,
) -> Result<ReconstructedMb, Refusal>
    ensures { prediction_told result ≡ whole_finished mb_skip_coeff (whole_products indices levels.now) (whole set (lowering_of full_pixel) (lent reference.entry.y.now reference.entry.u.now reference.entry.v.now (record { y_stride = reference.entry.y_stride; u_stride = reference.entry.u_stride; v_stride = reference.entry.v_stride; mb_cols = reference.entry.mb_cols; mb_rows = reference.entry.mb_rows })) mb_col mb_row luma_mv) }
{
    reconstruction::reconstruct_inter_mb_from_levels(
        reference.y,
        reference.u,
        reference.v,
        reference.sizes(),
        mb_col,
        mb_row,
        luma_mv,
        full_pixel,
        set,
        mb_skip_coeff,
        levels,
        indices,
    )
}

pub fn reconstruct_split_mv_mb_from_levels<'a>(
    reference: ReferencePlanes<'a>,
    mb_col: usize,
    mb_row: usize,
    split_luma_mvs: [Mv; 16],
    full_pixel: bool,
    set: FilterSet,
    mb_skip_coeff: bool,
    levels: &'a [i16],
    indices: QuantIndices,
) -> Result<ReconstructedMb, Refusal>
    ensures { prediction_told result ≡ split_finished mb_skip_coeff (split_products indices levels.now) (split set (lowering_of full_pixel) (lent reference.entry.y.now reference.entry.u.now reference.entry.v.now (record { y_stride = reference.entry.y_stride; u_stride = reference.entry.u_stride; v_stride = reference.entry.v_stride; mb_cols = reference.entry.mb_cols; mb_rows = reference.entry.mb_rows })) mb_col mb_row split_luma_mvs) }
{
    reconstruction::reconstruct_split_mv_mb_from_levels(
        reference.y,
        reference.u,
        reference.v,
        reference.sizes(),
        mb_col,
        mb_row,
        split_luma_mvs,
        full_pixel,
        set,
        mb_skip_coeff,
        levels,
        indices,
    )
}
