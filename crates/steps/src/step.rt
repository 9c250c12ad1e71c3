// One filter step. The sums of what is added and of what is subtracted stay apart, in sixteen bits, so that a line of steps becomes vector
// code; what a first step leaves is kept in sixteen bits too, and the last one says besides whether it was clipped.
ghost use Rattle.std.specs.Prelude.{◌≡◌, [], ◌∷◌, ◌+◌, ◌-◌, ◌*◌, ◌<◌, ◌≤◌, min, length, get_or, pos};
ghost use Rattle.signed.specs.Held.{Within};
ghost use Rattle.rfc6386.specs.Filter.{clamp255, step};
ghost use Rattle.rfc6386.specs.Picture.{step_at};
ghost use Rattle.rfc6386.specs.Clips.{clip_of, step_clip, clip_at};
ghost use Rattle.steps.specs.Rows.{Low};
ghost use Rattle.steps.specs.Tally.{part};
ghost use Rattle.steps.specs.Taps.{signed_taps, Middle, two_taps};

use crate::taps::Taps;

// A tap's size times a byte.
fn times(t: u8, s: u16) -> u16
    requires { s ≤ 255 }
    ensures { (result ≡ t * s) × (result ≤ 255 * t) }
{
    (t as u16) * s
}

// A first step, over six bytes.
#[tactic(auto, using(rfc6386::proofs::Laws::Steps::step_is))]
pub fn weigh(t: Taps, a: u16, b: u16, c: u16, d: u16, e: u16, f: u16) -> u16
    requires a_bound { (a ≤ 255) × (b ≤ 255) × (c ≤ 255) × (d ≤ 255) × (e ≤ 255) × (f ≤ 255) }
    ensures { result ≡ step (signed_taps t) (a ∷ b ∷ c ∷ d ∷ e ∷ f ∷ []) }
{
    let more = times(t.a, a) + times(t.c, c) + times(t.d, d) + times(t.f, f) + 64;
    let less = times(t.b, b) + times(t.e, e);
    (more.saturating_sub(less) / 128).min(255)
}

// The same over six samples of src, from i on and `gap` apart. These, here and below, are no struct that has them within src: it would be built
// for each sample only to be taken apart.
pub fn weigh_at(src: &[u8], i: usize, gap: usize, t: Taps) -> u16
    requires gap_in_bounds { i + 5 * gap < length src.now }
    ensures { result ≡ step_at (signed_taps t) src.now i gap }
{
    weigh(
        t,
        src[i] as u16,
        src[i + gap] as u16,
        src[i + 2 * gap] as u16,
        src[i + 3 * gap] as u16,
        src[i + 4 * gap] as u16,
        src[i + 5 * gap] as u16,
    )
}

// ---- the last step of a sample
// What it leaves, and its part of a tally: a number and no `Clip`, since a line adds the parts up by vector code, and the theorems tally-totals
// and digits speak of such sums.
#[derive(Clone, Copy)]
pub struct Step {
    pub sample: u8,
    pub part: u16,
}

// -1, 0 or 1 by where v lies, and of its bits those that a tally wants.
fn part_of(v: i16) -> u16
    requires { Within v 511 256 }
    ensures { result ≡ part (clip_of v) }
{
    ((v >> 8) & 513) as u16
}

// 8192 more keep the sum from falling below 0, and are 64 once it is divided.
pub fn counted(t: Taps, a: u16, b: u16, c: u16, d: u16, e: u16, f: u16) -> Step
    requires a_bound { (a ≤ 255) × (b ≤ 255) × (c ≤ 255) × (d ≤ 255) × (e ≤ 255) × (f ≤ 255) }
    ensures sample_value { result.sample ≡ step (signed_taps t) (a ∷ b ∷ c ∷ d ∷ e ∷ f ∷ []) }
    ensures part_value { result.part ≡ part (step_clip (signed_taps t) (a ∷ b ∷ c ∷ d ∷ e ∷ f ∷ [])) }
{
    let more = times(t.a, a) + times(t.c, c) + times(t.d, d) + times(t.f, f) + 8256;
    let less = times(t.b, b) + times(t.e, e);
    let v = ((more - less) / 128) as i16 - 64;
    Step {
        sample: v.clamp(0, 255) as u8,
        part: part_of(v),
    }
}

// Over six samples of src, from i on and `gap` apart.
pub fn counted_at(src: &[u8], i: usize, gap: usize, t: Taps) -> Step
    requires gap_in_bounds { i + 5 * gap < length src.now }
    ensures sample_value { result.sample ≡ step_at (signed_taps t) src.now i gap }
    ensures part_value { result.part ≡ part (clip_at (signed_taps t) src.now i gap) }
{
    counted(
        t,
        src[i] as u16,
        src[i + gap] as u16,
        src[i + 2 * gap] as u16,
        src[i + 3 * gap] as u16,
        src[i + 4 * gap] as u16,
        src[i + 5 * gap] as u16,
    )
}

// The same over samples that are kept in sixteen bits. Both are not one function over a sample's type: a list of a type parameter's values is
// no list of numbers, of which `step_at` and `clip_at` speak.
// That its numbers are bytes (`Low`) is asked, here and of lines: a record that says so would be made anew after each line that is written.
pub fn kept_at(src: &[u16], i: usize, gap: usize, t: Taps) -> Step
    requires gap_in_bounds { i + 5 * gap < length src.now }
    requires low { Low src.now }
    ensures sample_value { result.sample ≡ step_at (signed_taps t) src.now i gap }
    ensures part_value { result.part ≡ part (clip_at (signed_taps t) src.now i gap) }
{
    counted(
        t,
        src[i],
        src[i + gap],
        src[i + 2 * gap],
        src[i + 3 * gap],
        src[i + 4 * gap],
        src[i + 5 * gap],
    )
}

// ---- two taps
// A step of the two middle taps alone.
pub fn mix_at(src: &[u8], i: usize, gap: usize, t: Taps) -> u8
    requires middle { Middle t }
    requires gap_in_bounds { i + gap < length src.now }
    ensures { result ≡ two_taps t (get_or src.now i 0) (get_or src.now (i + gap) 0) }
{
    ((times(t.c, src[i] as u16) + times(t.d, src[i + gap] as u16) + 64) / 128) as u8
}
