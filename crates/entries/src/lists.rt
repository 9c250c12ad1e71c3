// Prediction from a lent list of vectors: refused where it has not sixteen, after the refusals of the prediction itself. What the two entries share
// is `listed_mvs`; the call that is left of each is shorter than one that is handed over.
// Their parameters are those of `prediction`, with a lent list for the sixteen.
ghost use Rattle.std.specs.Prelude.{◌≡◌, length, IfOk};
ghost use Rattle.rfc6386.specs.Answer.{report_told};
ghost use Rattle.rfc6386.specs.Vector.{lowering_of};
ghost use Rattle.rfc6386.specs.Refusal.{or_else, count_refusal};
ghost use Rattle.rfc6386.specs.Macroblock as macroblock;
ghost use Rattle.rfc6386.specs.Macroblock.{lent};
ghost use Rattle.rfc6386.specs.Report.{split_report, merging_report};
ghost use Rattle.entries.specs.Lists.{sixteen_of, listed, number_told};

use crate::sixteen::sixteen_mvs;
use numbers::Refusal;
use prediction::{predict_merging, predict_split_mv};
use refusals::refusal;
use rfc6386::{FilterSet, Mv, Predicted, Sizes};

// The list's vectors, unless the macroblock is refused.
#[tactic(auto, unfolding(crate::specs::Lists::sixteen_of, rfc6386::specs::Refusal::if_done))]
fn listed_mvs(
    y: &[u8],
    u: &[u8],
    v: &[u8],
    sizes: Sizes,
    mb_col: usize,
    mb_row: usize,
    mvs: &[Mv],
) -> Result<[Mv; 16], Refusal>
    ensures number { number_told result ≡ or_else (macroblock.refusal (lent y.now u.now v.now sizes) mb_col mb_row) (count_refusal 16 (length mvs.now)) }
    ensures value { IfOk result (λ sixteen. sixteen ≡ sixteen_of mvs.now) }
{
    refusal(y, u, v, sizes, mb_col, mb_row)?;
    sixteen_mvs(mvs)
}

#[tactic(auto, using(numbers::proofs::Laws::number_least), unfolding(rfc6386::specs::Report::split_report, rfc6386::specs::Macroblock::split, rfc6386::specs::Macroblock::answered, rfc6386::specs::Refusal::if_done, crate::specs::Lists::refused_by))]
pub fn predict_split_mv_list(
    y: &[u8],
    u: &[u8],
    v: &[u8],
    sizes: Sizes,
    mb_col: usize,
    mb_row: usize,
    mvs: &[Mv],
    full_pixel: bool,
    set: FilterSet,
) -> Result<Predicted, Refusal>
    ensures { report_told result ≡ listed (split_report set (lowering_of full_pixel) (lent y.now u.now v.now sizes) mb_col mb_row (sixteen_of mvs.now)) (length mvs.now) }
{
    let sixteen = listed_mvs(y, u, v, sizes, mb_col, mb_row, mvs)?;
    predict_split_mv(y, u, v, sizes, mb_col, mb_row, sixteen, full_pixel, set)
}

#[tactic(auto, using(numbers::proofs::Laws::number_least), unfolding(rfc6386::specs::Report::merging_report, rfc6386::specs::Macroblock::split, rfc6386::specs::Macroblock::answered, rfc6386::specs::Refusal::if_done, crate::specs::Lists::refused_by))]
pub fn predict_merging_list(
    y: &[u8],
    u: &[u8],
    v: &[u8],
    sizes: Sizes,
    mb_col: usize,
    mb_row: usize,
    mvs: &[Mv],
    full_pixel: bool,
    set: FilterSet,
) -> Result<Predicted, Refusal>
    ensures { report_told result ≡ listed (merging_report set (lowering_of full_pixel) (lent y.now u.now v.now sizes) mb_col mb_row (sixteen_of mvs.now)) (length mvs.now) }
{
    let sixteen = listed_mvs(y, u, v, sizes, mb_col, mb_row, mvs)?;
    predict_merging(y, u, v, sizes, mb_col, mb_row, sixteen, full_pixel, set)
}
