// Two rows of N elements, laid by one loop that makes an element of each a turn: a loop over one of them alone would not become vector code.
ghost use Rattle.std.specs.Prelude.{◌≡◌, ℕ, ◌+◌, ◌<◌, ◌≤◌, length, get_or};
ghost use Rattle.steps.specs.Rows.{laid_twice};
ghost use Rattle.steps.specs.Taps.{Middle, two_taps};
ghost use Rattle.sixteens.specs.Calls.{LaidTwo};

use steps::step::mix_at;
use steps::taps::Taps;

// From `to` on what `first` gives for 0, 1, .., N - 1, and `off` behind it what `second` gives.
#[tactic(auto, using(crate::proofs::Calls::two_none, crate::proofs::Calls::two_more))]
pub fn lay_two<T: Copy, const N: usize, F: Fn(usize) -> T, G: Fn(usize) -> T>(
    out: &mut [T],
    to: usize,
    off: usize,
    first: F,
    second: G,
)
    requires first_callable { (c : ℕ) → c < N → F.pre first c }
    requires second_callable { (c : ℕ) → c < N → G.pre second c }
    requires le_off { (N ≤ off) × (to + off + N ≤ length out.old) }
    ensures { LaidTwo (F.post first) (G.post second) out.old to off N out.new }
{
    for c in 0..N {
        out[to + c] = first(c);
        out[to + off + c] = second(c);
    }
}

// Steps of the two middle taps, over samples `gap` apart: of `left` from l on, and of `right` from r on.
pub fn mix_rows<const N: usize>(
    left: &[u8],
    l: usize,
    right: &[u8],
    r: usize,
    gap: usize,
    t: Taps,
    out: &mut [u8],
    to: usize,
    off: usize,
)
    requires middle { Middle t }
    requires gap_in_bounds { l + N + gap ≤ length left.now }
    requires gap_in_bounds_2 { r + N + gap ≤ length right.now }
    requires le_off { (N ≤ off) × (to + off + N ≤ length out.old) }
    ensures { out.new ≡ laid_twice out.old to off N (λ c. two_taps t (get_or left.now (l + c) 0) (get_or left.now (l + c + gap) 0)) (λ c. two_taps t (get_or right.now (r + c) 0) (get_or right.now (r + c + gap) 0)) }
{
    lay_two::<u8, N, _, _>(
        out,
        to,
        off,
        |c| mix_at(left, l + c, gap, t),
        |c| mix_at(right, r + c, gap, t),
    );
}
