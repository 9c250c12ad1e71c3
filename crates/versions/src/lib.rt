// What a frame's version number asks for: the tap table and the full-pixel flag; and prediction with them, which refuses the reserved
// numbers. What full-pixel lowers is as in the Rust, luma and chroma, or by the standard's rule, chroma alone. Whole and split are two functions
// here as in `prediction`: a trait for one vector and sixteen would be longer than the second one's body.
// Their parameters are those of `prediction`, with a frame's number, which may be any of 256, for table and flag.
#![tactic(auto)]

ghost use Rattle.std.specs.Prelude.{◌≡◌};
ghost use Rattle.rfc6386.specs.Answer.{prediction_told};
ghost use Rattle.rfc6386.specs.Filter.{version_set, version_profile};
ghost use Rattle.rfc6386.specs.Macroblock.{lent};
ghost use Rattle.rfc6386.specs.Version.{in_mode, whole_by_version, split_by_version};

use numbers::Refusal;
use prediction::{predict_inter_mb_lowered, predict_split_mv_lowered};
use rfc6386::{FilterSet, Lowering, Mv, Profile, ReconstructedMb, Sizes};

// The table and the full-pixel flag of a version. Only 0 to 3 have a meaning; the others are reserved, and have the Rust's table: so that a
// number is reserved is said beside the table, and is no refusal, since `filter_set_for_version` answers for all 256.
pub fn profile_for_version(version: u8) -> Profile
    ensures { result ≡ version_profile version }
{
    match version {
        0 => Profile {
            set: FilterSet::Sixtap,
            full_pixel: false,
            reserved: false,
        },
        1..=2 => Profile {
            set: FilterSet::Bilinear,
            full_pixel: false,
            reserved: false,
        },
        3 => Profile {
            set: FilterSet::Bilinear,
            full_pixel: true,
            reserved: false,
        },
        4..=255 => Profile {
            set: FilterSet::Bilinear,
            full_pixel: false,
            reserved: true,
        },
    }
}

pub fn filter_set_for_version(version: u8) -> FilterSet
    ensures { result ≡ version_set version }
{
    let profile = profile_for_version(version);
    profile.set
}

// Whether full-pixel lowers luma, which it does not by the standard's rule.
pub fn lowers_luma(full_pixel: bool, standard: bool) -> bool
    ensures { result ≡ (in_mode standard full_pixel).luma }
{
    if standard {
        return false;
    }
    full_pixel
}

// What it lowers.
pub fn lowering_by(full_pixel: bool, standard: bool) -> Lowering
    ensures { result ≡ in_mode standard full_pixel }
{
    Lowering {
        luma: lowers_luma(full_pixel, standard),
        chroma: full_pixel,
    }
}

// Whole prediction with the table and the flag of a frame's version; 10 before every other number where that is reserved.
#[tactic(auto, unfolding(rfc6386::specs::Version::whole_by_version, rfc6386::specs::Report::whole_report))]
pub fn predict_inter_mb_by_version(
    y: &[u8],
    u: &[u8],
    v: &[u8],
    sizes: Sizes,
    mb_col: usize,
    mb_row: usize,
    luma_mv: Mv,
    version: u8,
    standard: bool,
) -> Result<ReconstructedMb, Refusal>
    ensures { prediction_told result ≡ whole_by_version version standard (lent y.now u.now v.now sizes) mb_col mb_row luma_mv }
{
    let profile = profile_for_version(version);
    if profile.reserved {
        return Err(Refusal::Version);
    }
    let predicted = predict_inter_mb_lowered(
        y,
        u,
        v,
        sizes,
        mb_col,
        mb_row,
        luma_mv,
        lowering_by(profile.full_pixel, standard),
        profile.set,
    )?;
    Ok(predicted.samples)
}

// Split prediction likewise.
#[tactic(auto, unfolding(rfc6386::specs::Version::split_by_version, rfc6386::specs::Report::split_report))]
pub fn predict_split_mv_by_version(
    y: &[u8],
    u: &[u8],
    v: &[u8],
    sizes: Sizes,
    mb_col: usize,
    mb_row: usize,
    split_luma_mvs: [Mv; 16],
    version: u8,
    standard: bool,
) -> Result<ReconstructedMb, Refusal>
    ensures { prediction_told result ≡ split_by_version version standard (lent y.now u.now v.now sizes) mb_col mb_row split_luma_mvs }
{
    let profile = profile_for_version(version);
    if profile.reserved {
        return Err(Refusal::Version);
    }
    let predicted = predict_split_mv_lowered(
        y,
        u,
        v,
        sizes,
        mb_col,
        mb_row,
        split_luma_mvs,
        lowering_by(profile.full_pixel, standard),
        profile.set,
    )?;
    Ok(predicted.samples)
}
