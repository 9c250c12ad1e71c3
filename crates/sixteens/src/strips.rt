// Two strips of 8 columns and `rows` rows out of two windows with the same fractions, side by side in rows of 16: the halves of a
// macroblock's luma, its U and its V, or the upper and the lower half of a block of 8 by 8. A turn of a loop makes a sample of each: a row
// of 8 alone would not become vector code.
ghost use Rattle.std.specs.Prelude.{◌≡◌, ◌+◌, ◌*◌, ◌≤◌, length};
ghost use Rattle.rfc6386.specs.Picture.{step_at};
ghost use Rattle.rfc6386.specs.Sums.{sum_to};
ghost use Rattle.rfc6386.specs.Clips.{clip_at};
ghost use Rattle.steps.specs.Rows.{laid_twice, Held};
ghost use Rattle.steps.specs.Tally.{part, strip_tally};
ghost use Rattle.steps.specs.Taps.{signed_taps};
ghost use Rattle.steps.specs.Window.{sample_of, clip_in, Strips};
ghost use Rattle.sixteens.specs.Pairs.{Made, clipped_of};

use crate::pair::Pair;
use crate::two_rows::{lay_two, mix_rows};
use rfc6386::FilterSet;
use steps::lines::{last_line, mix_line};
use steps::rect::Window;
use steps::step::{counted_at, weigh_at};
use steps::tables::taps_of;
use steps::taps::Taps;
use steps::way::Way;

// A row of steps of each strip, over samples a `pitch` apart, from `at` on; also the tally of both. `lay_two` with closures that add to one
// tally would be no plainer: both would have to borrow it.
#[tactic(auto, using(steps::proofs::Laws::Twofold::twice_all))]
fn row(left: &[u8], l: Window, right: &[u8], r: Window, t: Taps, out: &mut [u8], to: usize) -> u16
    requires pitch_in_bounds { l.at + 8 + 5 * l.pitch ≤ length left.now }
    requires pitch_in_bounds_2 { r.at + 8 + 5 * r.pitch ≤ length right.now }
    requires to_in_bounds { to + 16 ≤ length out.old }
    ensures out_after { out.new ≡ laid_twice out.old to 8 8 (λ c. step_at (signed_taps t) left.now (l.at + c) l.pitch) (λ c. step_at (signed_taps t) right.now (r.at + c) r.pitch) }
    ensures value { result ≡ sum_to 8 (λ c. part (clip_at (signed_taps t) left.now (l.at + c) l.pitch)) + sum_to 8 (λ c. part (clip_at (signed_taps t) right.now (r.at + c) r.pitch)) }
{
    let mut tally: u16 = 0;
    for c in 0..8 {
        let s = counted_at(left, l.at + c, l.pitch, t);
        let z = counted_at(right, r.at + c, r.pitch, t);
        out[to + c] = s.sample;
        out[to + 8 + c] = z.sample;
        tally += s.part + z.part;
    }
    tally
}

// Both passes of six taps. The second goes by two halves, since sixteen bits hold the tally of no more than 127 samples.
fn two(pair: Pair, way: Way, tally: &mut u32) -> [u8; 128]
    requires le_my { 1 ≤ way.my }
    ensures strips { Made FilterSet.Sixtap pair.entry way result }
    ensures tally_after { tally.new ≡ clipped_of FilterSet.Sixtap pair.entry way }
{
    let tx = taps_of(FilterSet::Sixtap, way.mx);
    let ty = taps_of(FilterSet::Sixtap, way.my);
    let mut m = [0u16; 208];
    for q in 0..pair.rows + 5 {
        let i = pair.l.at + q * pair.l.pitch;
        let j = pair.r.at + q * pair.r.pitch;
        lay_two::<u16, 8, _, _>(
            &mut m,
            q * 16,
            8,
            |c| weigh_at(pair.left, i + c, 1, tx),
            |c| weigh_at(pair.right, j + c, 1, tx),
        );
    }
    let mut out = [0u8; 128];
    let half = pair.rows * 8;
    let upper = last_line(&m, 0, 16, &mut out, 0, half, ty);
    let lower = last_line(&m, half, 16, &mut out, half, half, ty);
    *tally = (upper as u32) + (lower as u32);
    out
}

// One pass of six taps, over samples l_gap apart in the left strip and r_gap apart in the right. It reads 8 of the columns of a `Pair`
// or `rows` of its rows, so that its windows come one by one.
fn pass(
    left: &[u8],
    l: Window,
    l_gap: usize,
    right: &[u8],
    r: Window,
    r_gap: usize,
    rows: usize,
    t: Taps,
    tally: &mut u32,
) -> [u8; 128]
    requires rows_bound { rows ≤ 8 }
    requires held { Held (length left.now) l.at l.pitch (8 + 5 * l_gap) rows }
    requires held_2 { Held (length right.now) r.at r.pitch (8 + 5 * r_gap) rows }
    ensures strips { Strips 128 rows (λ q c. step_at (signed_taps t) left.now (l.at + q * l.pitch + c) l_gap) (λ q c. step_at (signed_taps t) right.now (r.at + q * r.pitch + c) r_gap) result }
    ensures tally_after { tally.new ≡ strip_tally rows (λ q c. clip_at (signed_taps t) left.now (l.at + q * l.pitch + c) l_gap) + strip_tally rows (λ q c. clip_at (signed_taps t) right.now (r.at + q * r.pitch + c) r_gap) }
{
    let mut out = [0u8; 128];
    let mut sum: u32 = 0;
    for q in 0..rows {
        sum += row(
            left,
            Window {
                at: l.at + q * l.pitch,
                pitch: l_gap,
            },
            right,
            Window {
                at: r.at + q * r.pitch,
                pitch: r_gap,
            },
            t,
            &mut out,
            q * 16,
        ) as u32;
    }
    *tally = sum;
    out
}

// Both passes of two taps, which clip nothing.
#[tactic(auto, using(steps::proofs::Laws::Mixing::middle))]
fn mixed(pair: Pair, way: Way) -> [u8; 128]
    ensures { Made FilterSet.Bilinear pair.entry way result }
{
    let tx = taps_of(FilterSet::Bilinear, way.mx);
    let ty = taps_of(FilterSet::Bilinear, way.my);
    let mut m = [0u8; 144];
    for q in 0..pair.rows + 1 {
        let i = pair.l.at + 2 * pair.l.pitch + 2 + q * pair.l.pitch;
        let j = pair.r.at + 2 * pair.r.pitch + 2 + q * pair.r.pitch;
        mix_rows::<8>(pair.left, i, pair.right, j, 1, tx, &mut m, q * 16, 8);
    }
    let mut out = [0u8; 128];
    mix_line(&m, 0, 16, &mut out, 0, pair.rows * 16, ty);
    out
}

fn six_strips(pair: Pair, way: Way, tally: &mut u32) -> [u8; 128]
    ensures strips { Made FilterSet.Sixtap pair.entry way result }
    ensures tally_after { tally.new ≡ clipped_of FilterSet.Sixtap pair.entry way }
{
    if way.mx == 0 {
        return pass(
            pair.left,
            Window {
                at: pair.l.at + 2,
                pitch: pair.l.pitch,
            },
            pair.l.pitch,
            pair.right,
            Window {
                at: pair.r.at + 2,
                pitch: pair.r.pitch,
            },
            pair.r.pitch,
            pair.rows,
            taps_of(FilterSet::Sixtap, way.my),
            tally,
        );
    }
    if way.my == 0 {
        return pass(
            pair.left,
            Window {
                at: pair.l.at + 2 * pair.l.pitch,
                pitch: pair.l.pitch,
            },
            1,
            pair.right,
            Window {
                at: pair.r.at + 2 * pair.r.pitch,
                pitch: pair.r.pitch,
            },
            1,
            pair.rows,
            taps_of(FilterSet::Sixtap, way.mx),
            tally,
        );
    }
    two(pair, way, tally)
}

// Both strips, and in `tally` that of both.
pub fn filter_strips(
    left: &[u8],
    l: Window,
    right: &[u8],
    r: Window,
    rows: usize,
    way: Way,
    tally: &mut u32,
) -> [u8; 128]
    requires rows_bound { rows ≤ 8 }
    requires held { Held (length left.now) l.at l.pitch 13 (rows + 5) }
    requires held_2 { Held (length right.now) r.at r.pitch 13 (rows + 5) }
    ensures strips { Strips 128 rows (sample_of left.now l way) (sample_of right.now r way) result }
    ensures tally_after { tally.new ≡ strip_tally rows (clip_in left.now l way) + strip_tally rows (clip_in right.now r way) }
{
    let pair = Pair {
        left,
        l,
        right,
        r,
        rows,
    };
    match way.set {
        FilterSet::Sixtap => six_strips(pair, way, tally),
        FilterSet::Bilinear => {
            *tally = 0;
            mixed(pair, way)
        }
    }
}
