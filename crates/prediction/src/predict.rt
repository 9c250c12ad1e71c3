// Prediction of a macroblock from three planes beside a record of their sizes: whole, at whole pixels, split and merging. Each call takes
// everything, and reports how many samples it fetched and how many it clipped.
// The planes are plain slices beside their sizes, and not one record, since C's calls and the Rust's records are both taken apart to these.
// The other parameters are the Rust's, but for the table's name, and so are the names of its calls: hence whole and split are two functions each time.
ghost use Rattle.std.specs.Prelude.{◌≡◌, cond, ◌&&◌};
ghost use Rattle.numbers.specs.Outcome.{told};
ghost use Rattle.rfc6386.specs.Answer.{report_told};
ghost use Rattle.rfc6386.specs.Vector.{lowering_of, is_whole};
ghost use Rattle.rfc6386.specs.Macroblock as macroblock;
ghost use Rattle.rfc6386.specs.Macroblock.{lent};
ghost use Rattle.rfc6386.specs.Report.{whole_report, whole_pixel_report, split_report, merging_report};
ghost use Rattle.prediction.specs.Luma.{ButLuma};

use crate::split::{split_chroma, split_luma};
use crate::squares::squares_of;
use crate::standing::Standing;
use blocks::block::block_of_16;
use blocks::chroma::{Chroma, blocks_of_8};
use blocks::square::pixels_of;
use blocks::taken::{clips, fetched};
use motion_vectors::{
    are_one, chroma_vector, lowering_of, luma_vector, quarter_vectors, whole_pixel_fraction_is_zero,
};
use numbers::Refusal;
use refusals::refusal;
use rfc6386::{Clips, FilterSet, Lowering, Mv, Predicted, ReconstructedMb, Sizes};

// One vector for the macroblock. Whether luma, and whether chroma, is lowered to whole pixels is said apart.
#[tactic(auto, using(crate::proofs::Macroblock::refused_told), unfolding(rfc6386::specs::Report::whole_report, rfc6386::specs::Macroblock::whole))]
pub fn predict_inter_mb_lowered<'a>(
    y: &'a [u8],
    u: &'a [u8],
    v: &'a [u8],
    sizes: Sizes,
    mb_col: usize,
    mb_row: usize,
    luma_mv: Mv,
    lowering: Lowering,
    set: FilterSet,
) -> Result<Predicted, Refusal>
    ensures { report_told result ≡ whole_report set lowering (lent y.now u.now v.now sizes) mb_col mb_row luma_mv }
{
    refusal(y, u, v, sizes, mb_col, mb_row)?;
    let mb = squares_of(y, u, v, sizes, mb_col, mb_row);
    let luma = luma_vector(luma_mv, lowering.luma);
    let chroma = chroma_vector(luma_mv, lowering.chroma);
    let mut of_luma: u64 = 0;
    let mut of_chroma: u64 = 0;
    let Chroma {
        u: u_samples,
        v: v_samples,
    } = blocks_of_8(mb.chroma.first(), chroma, set, &mut of_chroma);
    let y_samples = block_of_16(mb.luma.lent, luma, set, &mut of_luma);
    let all = of_luma + of_chroma;
    Ok(Predicted {
        samples: ReconstructedMb {
            y: y_samples,
            u: u_samples,
            v: v_samples,
        },
        fetched: fetched(all),
        clips: clips(all),
    })
}

// One flag for both.
pub fn predict_inter_mb(
    y: &[u8],
    u: &[u8],
    v: &[u8],
    sizes: Sizes,
    mb_col: usize,
    mb_row: usize,
    luma_mv: Mv,
    full_pixel: bool,
    set: FilterSet,
) -> Result<Predicted, Refusal>
    ensures { report_told result ≡ whole_report set (lowering_of full_pixel) (lent y.now u.now v.now sizes) mb_col mb_row luma_mv }
{
    predict_inter_mb_lowered(
        y,
        u,
        v,
        sizes,
        mb_col,
        mb_row,
        luma_mv,
        lowering_of(full_pixel),
        set,
    )
}

// Number 8 where a fraction is left, in any plane.
pub fn fraction_left(luma: Mv, chroma: Mv) -> Result<(), Refusal>
    ensures { told result ≡ cond (is_whole luma && is_whole chroma) 0 8 }
{
    if whole_pixel_fraction_is_zero(luma) && whole_pixel_fraction_is_zero(chroma) {
        return Ok(());
    }
    Err(Refusal::Fraction)
}

// The same for a vector that leaves no fraction in any plane, without a filter.
#[tactic(auto, using(crate::proofs::Macroblock::refused_told), unfolding(rfc6386::specs::Report::whole_pixel_report, rfc6386::specs::Macroblock::whole_pixel))]
pub fn predict_inter_mb_whole_pixel(
    y: &[u8],
    u: &[u8],
    v: &[u8],
    sizes: Sizes,
    mb_col: usize,
    mb_row: usize,
    luma_mv: Mv,
    full_pixel: bool,
) -> Result<Predicted, Refusal>
    ensures { report_told result ≡ whole_pixel_report (lowering_of full_pixel) (lent y.now u.now v.now sizes) mb_col mb_row luma_mv }
{
    let luma = luma_vector(luma_mv, full_pixel);
    let chroma = chroma_vector(luma_mv, full_pixel);
    refusal(y, u, v, sizes, mb_col, mb_row)?;
    fraction_left(luma, chroma)?;
    let mb = squares_of(y, u, v, sizes, mb_col, mb_row);
    let mut of_y: u64 = 0;
    let mut of_u: u64 = 0;
    let mut of_v: u64 = 0;
    Ok(Predicted {
        samples: ReconstructedMb {
            y: pixels_of::<16, 256>(mb.luma.lent, luma, &mut of_y),
            u: pixels_of::<8, 64>(mb.chroma.u.lent, chroma, &mut of_u),
            v: pixels_of::<8, 64>(mb.chroma.v.lent, chroma, &mut of_v),
        },
        fetched: of_y + (of_u + of_v),
        clips: Clips { low: 0, high: 0 },
    })
}

// A split macroblock but for its luma: where that stands, and the chroma samples.
#[derive(Clone, Copy)]
pub struct Rest<'a> {
    pub luma: Standing<'a, 16>,
    pub chroma: Chroma,
}

// The same of a macroblock that is not refused.
pub fn split_but_luma<'a>(
    y: &'a [u8],
    u: &'a [u8],
    v: &'a [u8],
    sizes: Sizes,
    mb_col: usize,
    mb_row: usize,
    split_luma_mvs: [Mv; 16],
    lower_chroma: bool,
    set: FilterSet,
    all: &mut u64,
) -> Rest<'a>
    requires { macroblock.refusal (lent y.now u.now v.now sizes) mb_col mb_row ≡ 0 }
    ensures { ButLuma set lower_chroma (lent y.now u.now v.now sizes) mb_col mb_row split_luma_mvs result all.new }
{
    let mb = squares_of(y, u, v, sizes, mb_col, mb_row);
    let mvs = quarter_vectors(split_luma_mvs, lower_chroma);
    Rest {
        luma: mb.luma,
        chroma: split_chroma(mb.chroma, mvs, set, all),
    }
}

// A vector for each of the sixteen 4x4 luma blocks; luma and chroma are lowered apart.
#[tactic(auto, using(crate::proofs::Macroblock::refused_told), unfolding(rfc6386::specs::Report::split_report, rfc6386::specs::Macroblock::split))]
pub fn predict_split_mv_lowered(
    y: &[u8],
    u: &[u8],
    v: &[u8],
    sizes: Sizes,
    mb_col: usize,
    mb_row: usize,
    split_luma_mvs: [Mv; 16],
    lowering: Lowering,
    set: FilterSet,
) -> Result<Predicted, Refusal>
    ensures { report_told result ≡ split_report set lowering (lent y.now u.now v.now sizes) mb_col mb_row split_luma_mvs }
{
    refusal(y, u, v, sizes, mb_col, mb_row)?;
    let mut of_luma: u64 = 0;
    let mut of_chroma: u64 = 0;
    let rest = split_but_luma(
        y,
        u,
        v,
        sizes,
        mb_col,
        mb_row,
        split_luma_mvs,
        lowering.chroma,
        set,
        &mut of_chroma,
    );
    let y_samples = split_luma(rest.luma, split_luma_mvs, lowering.luma, set, &mut of_luma);
    let all = of_luma + of_chroma;
    Ok(Predicted {
        samples: ReconstructedMb {
            y: y_samples,
            u: rest.chroma.u,
            v: rest.chroma.v,
        },
        fetched: fetched(all),
        clips: clips(all),
    })
}

// One flag for both.
pub fn predict_split_mv(
    y: &[u8],
    u: &[u8],
    v: &[u8],
    sizes: Sizes,
    mb_col: usize,
    mb_row: usize,
    split_luma_mvs: [Mv; 16],
    full_pixel: bool,
    set: FilterSet,
) -> Result<Predicted, Refusal>
    ensures { report_told result ≡ split_report set (lowering_of full_pixel) (lent y.now u.now v.now sizes) mb_col mb_row split_luma_mvs }
{
    predict_split_mv_lowered(
        y,
        u,
        v,
        sizes,
        mb_col,
        mb_row,
        split_luma_mvs,
        lowering_of(full_pixel),
        set,
    )
}

// Split prediction, by one whole prediction where the sixteen vectors are one: the count says so.
pub fn predict_merging(
    y: &[u8],
    u: &[u8],
    v: &[u8],
    sizes: Sizes,
    mb_col: usize,
    mb_row: usize,
    split_luma_mvs: [Mv; 16],
    full_pixel: bool,
    set: FilterSet,
) -> Result<Predicted, Refusal>
    ensures { report_told result ≡ merging_report set (lowering_of full_pixel) (lent y.now u.now v.now sizes) mb_col mb_row split_luma_mvs }
{
    if are_one(split_luma_mvs) {
        let first = split_luma_mvs[0];
        return predict_inter_mb(y, u, v, sizes, mb_col, mb_row, first, full_pixel, set);
    }
    predict_split_mv(
        y,
        u,
        v,
        sizes,
        mb_col,
        mb_row,
        split_luma_mvs,
        full_pixel,
        set,
    )
}
