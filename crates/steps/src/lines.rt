// Lines of steps: n of them over src from `at` on, each over samples `gap` apart, to dst from `to` on.
ghost use Rattle.std.specs.Prelude.{◌≡◌, ℕ, ◌+◌, ◌*◌, ◌<◌, ◌≤◌, length, get_or};
ghost use Rattle.rfc6386.specs.Picture.{step_at};
ghost use Rattle.rfc6386.specs.Sums.{sum_to};
ghost use Rattle.rfc6386.specs.Clips.{clip_at};
ghost use Rattle.steps.specs.Rows.{laid, Low};
ghost use Rattle.steps.specs.Tally.{part};
ghost use Rattle.steps.specs.Taps.{signed_taps, Middle, two_taps};

use crate::step::{Step, counted_at, kept_at, mix_at, weigh_at};
use crate::taps::Taps;

// The samples that `step` makes of 0, .., n - 1, to dst from `to` on; also the sum of their parts.
// Sixteen bits hold that of 64. That n is no more is a clause, here and below: a type of such counts would be no plainer than the numbers that
// callers write.
fn tallied<F: Fn(usize) -> Step>(dst: &mut [u8], to: usize, n: usize, step: F) -> u16
    requires n_in_bounds { to + n ≤ length dst.old }
    requires n_bound { n ≤ 64 }
    requires steps { (i : ℕ) → i < n → F.pre step i }
    requires parts { (i : ℕ) → i < n → (s : _) → F.post step i s → s.part ≤ 513 }
    ensures dst_after { (f : ℕ → ℕ) → ((i : ℕ) → i < n → (s : _) → F.post step i s → s.sample ≡ f i) → dst.new ≡ laid dst.old to n f }
    ensures value { (h : ℕ → ℕ) → ((i : ℕ) → i < n → (s : _) → F.post step i s → s.part ≡ h i) → result ≡ sum_to n h }
{
    let mut tally: u16 = 0;
    for i in 0..n {
        let s = step(i);
        dst[to + i] = s.sample;
        tally += s.part;
    }
    tally
}

// The last pass, or the only one: also its tally.
pub fn line(src: &[u8], at: usize, gap: usize, dst: &mut [u8], to: usize, n: usize, t: Taps) -> u16
    requires gap_in_bounds { at + n + 5 * gap ≤ length src.now }
    requires n_in_bounds { to + n ≤ length dst.old }
    requires n_bound { n ≤ 64 }
    ensures dst_after { dst.new ≡ laid dst.old to n (λ i. step_at (signed_taps t) src.now (at + i) gap) }
    ensures value { result ≡ sum_to n (λ i. part (clip_at (signed_taps t) src.now (at + i) gap)) }
{
    tallied(dst, to, n, |i| counted_at(src, at + i, gap, t))
}

// The first of two passes: what it leaves is kept in sixteen bits. It and `mix_line` are not one function over what a step leaves: a list of
// a type parameter's values is no list of numbers, of which `laid` speaks.
#[tactic(auto, using(crate::proofs::Laws::Copying::laying))]
pub fn first_line(src: &[u8], at: usize, gap: usize, dst: &mut [u16], to: usize, n: usize, t: Taps)
    requires gap_in_bounds { at + n + 5 * gap ≤ length src.now }
    requires n_in_bounds { to + n ≤ length dst.old }
    ensures { dst.new ≡ laid dst.old to n (λ i. step_at (signed_taps t) src.now (at + i) gap) }
{
    for i in 0..n {
        dst[to + i] = weigh_at(src, at + i, gap, t);
    }
}

// The second of two.
// It and `line` are not one function, as `kept_at` and `counted_at` are not.
pub fn last_line(
    src: &[u16],
    at: usize,
    gap: usize,
    dst: &mut [u8],
    to: usize,
    n: usize,
    t: Taps,
) -> u16
    requires gap_in_bounds { at + n + 5 * gap ≤ length src.now }
    requires n_in_bounds { to + n ≤ length dst.old }
    requires n_bound { n ≤ 64 }
    requires low { Low src.now }
    ensures dst_after { dst.new ≡ laid dst.old to n (λ i. step_at (signed_taps t) src.now (at + i) gap) }
    ensures value { result ≡ sum_to n (λ i. part (clip_at (signed_taps t) src.now (at + i) gap)) }
{
    tallied(dst, to, n, |i| kept_at(src, at + i, gap, t))
}

// Steps of the two middle taps. That `t` has no others is asked here, and is no ghost field of a type of such taps: the theorems
// mix_across_sample, mix_down_sample and mixed_sample speak of `Taps`.
#[tactic(auto, using(crate::proofs::Laws::Copying::laying))]
pub fn mix_line(src: &[u8], at: usize, gap: usize, dst: &mut [u8], to: usize, n: usize, t: Taps)
    requires middle { Middle t }
    requires gap_in_bounds { at + n + gap ≤ length src.now }
    requires n_in_bounds { to + n ≤ length dst.old }
    ensures { dst.new ≡ laid dst.old to n (λ i. two_taps t (get_or src.now (at + i) 0) (get_or src.now (at + i + gap) 0)) }
{
    for i in 0..n {
        dst[to + i] = mix_at(src, at + i, gap, t);
    }
}
