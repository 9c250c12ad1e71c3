// Prediction for C with a report of how many samples it fetched and how many it clipped: whole, split, merging or by quarters, by a code; and
// running totals of the latter.
ghost use Rattle.std.specs.Prelude.{◌≡◌, length};
ghost use Rattle.numbers.specs.Outcome.{told};
ghost use Rattle.prediction.specs.Totals.{added};
ghost use Rattle.outputs.specs.Output.{Told, ended_told};
ghost use Rattle.threshowl.specs.Boundary as boundary;
ghost use Rattle.threshowl.specs.Boundary.{picture_of, kind_coded, report_codes, report_by};

use crate::boundary::{codes_refusal, set_of};
use crate::finished::with_late;
use motion_vectors::{are_one, lowering_of};
use numbers::Refusal;
use outputs::{Ended, quarters_into, split_into, whole_into};
use prediction::add_clipped;
use rfc6386::{Mv, Sizes};
use vector_bytes::mvs_of_bytes;

// Whole prediction by the first vector, split prediction, split prediction by the whole call where the vectors are one, and split prediction
// that merges its luma by quarters.
#[derive(Clone, Copy, Debug, PartialEq, Eq)]
pub enum Kind {
    Whole,
    Split,
    Merging,
    Quarters,
}

impl TryFrom<u8> for Kind {
    type Error = Refusal;

    ghost try_from_gives = { λ code r. r ≡ kind_coded code };

    fn try_from(code: u8) -> Result<Kind, Refusal> {
        match code {
            0 => Ok(Kind::Whole),
            1 => Ok(Kind::Split),
            2 => Ok(Kind::Merging),
            3 => Ok(Kind::Quarters),
            _ => Err(Refusal::Orders),
        }
    }
}

// The kind that a call goes by: merging is whole prediction where the vectors are one, else split prediction. A kind that there is not is refused
// after all else, and goes by quarters until then.
fn called(kind: Result<Kind, Refusal>, mvs: [Mv; 16]) -> Kind
    ensures { result ≡ boundary.called kind mvs }
{
    match kind {
        Ok(Kind::Merging) => {
            if are_one(mvs) {
                return Kind::Whole;
            }
            Kind::Split
        }
        Ok(kind) => kind,
        Err(_) => Kind::Quarters,
    }
}

// Says it through the pointers that C lends.
fn tell(ended: Result<Ended, Refusal>, fetched: &mut u64, low: &mut u64, high: &mut u64) -> u32
    ensures { ended_told ended ≡ record { number = result; fetched = fetched.new; clips = record { low = low.new; high = high.new } } }
{
    match ended {
        Ok(ended) => {
            *fetched = ended.fetched;
            *low = u64::from(ended.clips.low);
            *high = u64::from(ended.clips.high);
            0
        }
        Err(refusal) => {
            *fetched = 0;
            *low = 0;
            *high = 0;
            u32::from(refusal)
        }
    }
}

#[unsafe(no_mangle)]
pub extern "C" fn threshowl_predict_report(
    y: &[u8],
    u: &[u8],
    v: &[u8],
    y_stride: usize,
    u_stride: usize,
    v_stride: usize,
    mb_cols: usize,
    mb_rows: usize,
    mb_col: usize,
    mb_row: usize,
    vectors: &[u8],
    kind: u8,
    filter: u8,
    full_pixel: u8,
    out: &mut [u8],
    fetched: &mut u64,
    clipped_low: &mut u64,
    clipped_high: &mut u64,
) -> u32
    ensures { Told (report_by kind filter full_pixel (picture_of y.now u.now v.now y_stride u_stride v_stride mb_cols mb_rows) mb_col mb_row vectors.now) (report_codes filter (length vectors.now) (length out.old) kind) out.old (record { number = result; fetched = fetched.new; clips = record { low = clipped_low.new; high = clipped_high.new } }) out.new }
{
    let sizes = Sizes {
        y_stride,
        u_stride,
        v_stride,
        mb_cols,
        mb_rows,
    };
    let given = codes_refusal(filter, vectors.len());
    let kind = Kind::try_from(kind);
    let codes = with_late(given, out.len(), kind.and(Ok(())));
    let mvs = mvs_of_bytes(vectors);
    let low = lowering_of(full_pixel != 0);
    let set = set_of(filter);
    let ended = match called(kind, mvs) {
        Kind::Whole => whole_into(y, u, v, sizes, mb_col, mb_row, mvs[0], low, set, codes, out),
        Kind::Split => split_into(y, u, v, sizes, mb_col, mb_row, mvs, low, set, codes, out),
        _ => quarters_into(
            y,
            u,
            v,
            sizes,
            mb_col,
            mb_row,
            mvs,
            full_pixel != 0,
            set,
            codes,
            out,
        ),
    };
    tell(ended, fetched, clipped_low, clipped_high)
}

#[unsafe(no_mangle)]
pub extern "C" fn threshowl_add_clipped(
    low: &mut u64,
    high: &mut u64,
    mb_low: u64,
    mb_high: u64,
) -> u32
    ensures { added low.old high.old mb_low mb_high ≡ record { number = result; low = low.new; high = high.new } }
{
    match add_clipped(*low, *high, mb_low, mb_high) {
        Ok(totals) => {
            *low = totals.low;
            *high = totals.high;
            0
        }
        Err(refusal) => u32::from(refusal),
    }
}
