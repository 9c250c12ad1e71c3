// Split prediction that merges its luma by quarters: a square whose vectors are all equal is predicted in one go, and of any other each
// quarter follows the same rule, down to side 4. Vectors are compared as they were sent.
#![tactic(auto)]

ghost use Rattle.std.specs.Prelude.{◌≡◌, true, false, ◌↔◌, ℕ, ◌+◌, ◌*◌, ◌/◌, ◌%◌, ◌≤◌, ◌<◌, length};
ghost use Rattle.rfc6386.specs.Answer.{report_told};
ghost use Rattle.rfc6386.specs.Vector as vector;
ghost use Rattle.rfc6386.specs.Picture as picture;
ghost use Rattle.rfc6386.specs.Macroblock as macroblock;
ghost use Rattle.rfc6386.specs.Report as report;
ghost use Rattle.blocks.specs.Lents.{plane_in};
ghost use Rattle.quarters.specs.Parts.{part, OneVector, square_takes};

mod piece;

use crate::piece::Piece;
use blocks::sided::sided_into;
use blocks::taken::{clips, fetched};
use motion_vectors::luma_vector;
use numbers::Refusal;
use prediction::predict::split_but_luma;
use prediction::split::split_luma;
use prediction::standing::Standing;
use refusals::refusal;
use rfc6386::{FilterSet, Mv, Predicted, ReconstructedMb, Sizes};
use steps::rect::Spot;

// The n vectors from `from` on are all v.
fn row_is(mvs: [Mv; 16], from: usize, n: usize, v: Mv) -> bool
    requires { from + n ≤ 16 }
    ensures { (result ≡ true) ↔ ((k : ℕ) → k < n → vector.sent mvs (from + k) ≡ v) }
{
    for i in 0..n {
        if mvs[from + i] != v {
            return false;
        }
    }
    true
}

// All vectors of a piece are equal, as they were sent.
#[tactic(auto, using(crate::proofs::Parts::by_rows, crate::proofs::Parts::rows_of))]
fn one_vector(mvs: [Mv; 16], piece: Piece) -> bool
    ensures { (result ≡ true) ↔ OneVector mvs piece.x piece.y piece.side }
{
    let first = piece.y / 4 * 4 + piece.x / 4;
    let v = mvs[first];
    let n = piece.side / 4;
    for i in 0..n {
        if !row_is(mvs, first + i * 4, n, v) {
            return false;
        }
    }
    true
}

// A piece of a macroblock's luma; gives what it took. It calls itself on the piece's quarters, as the definition does: the side falls, 16, 8, 4.
fn luma_square(
    luma: Standing<'_, 16>,
    mvs: [Mv; 16],
    lower: bool,
    set: FilterSet,
    out: &mut [u8],
    piece: Piece,
) -> u64
    requires { length out.old ≡ 256 }
    ensures out_after { out.new ≡ part (picture.block_by 16 set (picture.image (plane_in luma.entry.lent)) luma.entry.lent.at.x luma.entry.lent.at.y (λ r c. vector.luma_vector (vector.lowering_of lower) (vector.sent mvs (macroblock.subblock r c)))) out.old piece.x piece.y piece.side }
    ensures value { result ≡ square_takes set (vector.lowering_of lower) (plane_in luma.entry.lent) luma.entry.lent.at.x luma.entry.lent.at.y mvs piece.x piece.y piece.side }
{
    let x = piece.x;
    let y = piece.y;
    if one_vector(mvs, piece) {
        let mv = luma_vector(mvs[y / 4 * 4 + x / 4], lower);
        let here = luma.block(x, y);
        return sided_into(here, mv, set, piece.side, out, Spot { stride: 16, x, y });
    }
    let first = luma_square(luma, mvs, lower, set, out, piece.quarter(0, 0));
    let second = luma_square(luma, mvs, lower, set, out, piece.quarter(1, 0));
    let third = luma_square(luma, mvs, lower, set, out, piece.quarter(0, 1));
    let fourth = luma_square(luma, mvs, lower, set, out, piece.quarter(1, 1));
    first + second + third + fourth
}

// Some quarter of the macroblock has one vector.
fn merges(mvs: [Mv; 16]) -> bool
    ensures { result ≡ false → (q : ℕ) → q < 4 → OneVector mvs (q % 2 * 8) (q / 2 * 8) 8 → ⊥ }
{
    for q in 0..4 {
        let x = q % 2 * 8;
        let y = q / 2 * 8;
        if one_vector(mvs, Piece { x, y, side: 8 }) {
            return true;
        }
    }
    false
}

// The luma of a split macroblock.
fn quarters_luma(
    luma: Standing<'_, 16>,
    mvs: [Mv; 16],
    lower: bool,
    set: FilterSet,
    all: &mut u64,
) -> [u8; 256]
    ensures value { result ≡ picture.block_by 16 set (picture.image (plane_in luma.entry.lent)) luma.entry.lent.at.x luma.entry.lent.at.y (λ r c. vector.luma_vector (vector.lowering_of lower) (vector.sent mvs (macroblock.subblock r c))) }
    ensures all_after { all.new ≡ square_takes set (vector.lowering_of lower) (plane_in luma.entry.lent) luma.entry.lent.at.x luma.entry.lent.at.y mvs 0 0 16 }
{
    if !merges(mvs) {
        return split_luma(luma, mvs, lower, set, all);
    }
    let mut out = [0u8; 256];
    let whole = Piece {
        x: 0,
        y: 0,
        side: 16,
    };
    *all = luma_square(luma, mvs, lower, set, &mut out, whole);
    out
}

// Split prediction. What it shares with `predict_split_mv_lowered` is one function's worth, `split_but_luma`, and one law's (`Reports`): a step handed
// to a common frame would bring a list of its own into the contract, and take more lines than the frame has.
// Its parameters are those of `predict_split_mv`.
#[tactic(auto, using(prediction::proofs::Macroblock::refused_told), unfolding(rfc6386::specs::Report::quarters_report, rfc6386::specs::Macroblock::split))]
pub fn predict_quarters(
    y: &[u8],
    u: &[u8],
    v: &[u8],
    sizes: Sizes,
    mb_col: usize,
    mb_row: usize,
    split_luma_mvs: [Mv; 16],
    full_pixel: bool,
    set: FilterSet,
) -> Result<Predicted, Refusal>
    ensures { report_told result ≡ report.quarters_report set (vector.lowering_of full_pixel) (macroblock.lent y.now u.now v.now sizes) mb_col mb_row split_luma_mvs }
{
    refusal(y, u, v, sizes, mb_col, mb_row)?;
    let mut of_luma: u64 = 0;
    let mut of_chroma: u64 = 0;
    let rest = split_but_luma(
        y,
        u,
        v,
        sizes,
        mb_col,
        mb_row,
        split_luma_mvs,
        full_pixel,
        set,
        &mut of_chroma,
    );
    let y_samples = quarters_luma(rest.luma, split_luma_mvs, full_pixel, set, &mut of_luma);
    let all = of_luma + of_chroma;
    Ok(Predicted {
        samples: ReconstructedMb {
            y: y_samples,
            u: rest.chroma.u,
            v: rest.chroma.v,
        },
        fetched: fetched(all),
        clips: clips(all),
    })
}
