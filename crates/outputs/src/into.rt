// Predictions that end in a lent output.
// The three are a line each before `finish`, and differ in which prediction that is.
ghost use Rattle.rfc6386.specs.Answer.{report_told};
ghost use Rattle.rfc6386.specs.Vector.{lowering_of};
ghost use Rattle.rfc6386.specs.Macroblock.{lent};
ghost use Rattle.rfc6386.specs.Report.{whole_report, split_report, quarters_report};
ghost use Rattle.numbers.specs.Outcome.{told};
ghost use Rattle.outputs.specs.Output.{Told, ended_told};

use crate::samples::write_samples;
use numbers::Refusal;
use prediction::{predict_inter_mb_lowered, predict_split_mv_lowered};
use quarters::predict_quarters;
use refusals::room_refusal;
use rfc6386::{Clips, FilterSet, Lowering, Mv, Predicted, Sizes};

// What a call says that is lent an output: how many samples it fetched, and how many of its own were clipped.
#[derive(Clone, Copy)]
pub struct Ended {
    pub fetched: u64,
    pub clips: Clips,
}

// Ends a call.
fn finish(
    report: Result<Predicted, Refusal>,
    codes: Result<(), Refusal>,
    out: &mut [u8],
) -> Result<Ended, Refusal>
    ensures { Told (report_told report) (told codes) out.old (ended_told result) out.new }
{
    let predicted = report?;
    codes?;
    room_refusal(out.len())?;
    write_samples(out, predicted.samples);
    Ok(Ended {
        fetched: predicted.fetched,
        clips: predicted.clips,
    })
}

// Whole prediction.
pub fn whole_into(
    y: &[u8],
    u: &[u8],
    v: &[u8],
    sizes: Sizes,
    mb_col: usize,
    mb_row: usize,
    mv: Mv,
    lowering: Lowering,
    set: FilterSet,
    codes: Result<(), Refusal>,
    out: &mut [u8],
) -> Result<Ended, Refusal>
    ensures { Told (whole_report set lowering (lent y.now u.now v.now sizes) mb_col mb_row mv) (told codes) out.old (ended_told result) out.new }
{
    let report = predict_inter_mb_lowered(y, u, v, sizes, mb_col, mb_row, mv, lowering, set);
    finish(report, codes, out)
}

// Split prediction.
pub fn split_into(
    y: &[u8],
    u: &[u8],
    v: &[u8],
    sizes: Sizes,
    mb_col: usize,
    mb_row: usize,
    mvs: [Mv; 16],
    lowering: Lowering,
    set: FilterSet,
    codes: Result<(), Refusal>,
    out: &mut [u8],
) -> Result<Ended, Refusal>
    ensures { Told (split_report set lowering (lent y.now u.now v.now sizes) mb_col mb_row mvs) (told codes) out.old (ended_told result) out.new }
{
    let report = predict_split_mv_lowered(y, u, v, sizes, mb_col, mb_row, mvs, lowering, set);
    finish(report, codes, out)
}

// Split prediction that merges its luma by quarters.
pub fn quarters_into(
    y: &[u8],
    u: &[u8],
    v: &[u8],
    sizes: Sizes,
    mb_col: usize,
    mb_row: usize,
    mvs: [Mv; 16],
    full_pixel: bool,
    set: FilterSet,
    codes: Result<(), Refusal>,
    out: &mut [u8],
) -> Result<Ended, Refusal>
    ensures { Told (quarters_report set (lowering_of full_pixel) (lent y.now u.now v.now sizes) mb_col mb_row mvs) (told codes) out.old (ended_told result) out.new }
{
    let report = predict_quarters(y, u, v, sizes, mb_col, mb_row, mvs, full_pixel, set);
    finish(report, codes, out)
}
