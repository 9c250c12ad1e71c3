// The three calls from quantised levels. Each makes the coefficients that the levels stand for, and calls the function of that form on them.
// They are three as the functions that they call are, whose parameters they have.
ghost use Rattle.std.specs.Prelude.{◌≡◌};
ghost use Rattle.rfc6386.specs.Answer.{prediction_told};
ghost use Rattle.rfc6386.specs.Vector.{lowering_of};
ghost use Rattle.rfc6386.specs.Macroblock.{lent, whole, split, whole_pixel};
ghost use Rattle.residue.specs.Reconstruction.{whole_finished, split_finished};
ghost use Rattle.quantisers.specs.Levels.{whole_products, split_products};

use crate::reconstruct::{
    reconstruct_inter_mb, reconstruct_inter_mb_whole_pixel, reconstruct_split_mv_mb,
};
use numbers::Refusal;
use quantisers::{QuantIndices, split_coefficients, whole_coefficients};
use rfc6386::{FilterSet, Mv, ReconstructedMb, Sizes};

pub fn reconstruct_inter_mb_whole_pixel_from_levels(
    y: &[u8],
    u: &[u8],
    v: &[u8],
    sizes: Sizes,
    mb_col: usize,
    mb_row: usize,
    luma_mv: Mv,
    full_pixel: bool,
    mb_skip_coeff: bool,
    levels: &[i16],
    indices: QuantIndices,
) -> Result<ReconstructedMb, Refusal>
    ensures { prediction_told result ≡ whole_finished mb_skip_coeff (whole_products indices levels.now) (whole_pixel (lowering_of full_pixel) (lent y.now u.now v.now sizes) mb_col mb_row luma_mv) }
{
    let mut c = [0i16; 400];
    let n = whole_coefficients(mb_skip_coeff, levels, indices, &mut c);
    reconstruct_inter_mb_whole_pixel(
        y,
        u,
        v,
        sizes,
        mb_col,
        mb_row,
        luma_mv,
        full_pixel,
        mb_skip_coeff,
        &c[..n],
    )
}

pub fn reconstruct_inter_mb_from_levels(
    y: &[u8],
    u: &[u8],
    v: &[u8],
    sizes: Sizes,
    mb_col: usize,
    mb_row: usize,
    luma_mv: Mv,
    full_pixel: bool,
    set: FilterSet,
    mb_skip_coeff: bool,
    levels: &[i16],
    indices: QuantIndices,
) -> Result<ReconstructedMb, Refusal>
    ensures { prediction_told result ≡ whole_finished mb_skip_coeff (whole_products indices levels.now) (whole set (lowering_of full_pixel) (lent y.now u.now v.now sizes) mb_col mb_row luma_mv) }
{
    let mut c = [0i16; 400];
    let n = whole_coefficients(mb_skip_coeff, levels, indices, &mut c);
    reconstruct_inter_mb(
        y,
        u,
        v,
        sizes,
        mb_col,
        mb_row,
        luma_mv,
        full_pixel,
        set,
        mb_skip_coeff,
        &c[..n],
    )
}

pub fn reconstruct_split_mv_mb_from_levels(
    y: &[u8],
    u: &[u8],
    v: &[u8],
    sizes: Sizes,
    mb_col: usize,
    mb_row: usize,
    split_luma_mvs: [Mv; 16],
    full_pixel: bool,
    set: FilterSet,
    mb_skip_coeff: bool,
    levels: &[i16],
    indices: QuantIndices,
) -> Result<ReconstructedMb, Refusal>
    ensures { prediction_told result ≡ split_finished mb_skip_coeff (split_products indices levels.now) (split set (lowering_of full_pixel) (lent y.now u.now v.now sizes) mb_col mb_row split_luma_mvs) }
{
    let mut c = [0i16; 384];
    let n = split_coefficients(mb_skip_coeff, levels, indices, &mut c);
    reconstruct_split_mv_mb(
        y,
        u,
        v,
        sizes,
        mb_col,
        mb_row,
        split_luma_mvs,
        full_pixel,
        set,
        mb_skip_coeff,
        &c[..n],
    )
}
