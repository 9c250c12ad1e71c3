// One step, and the filters over a halo, as in the Rust: a block of 4, 8 or 16 samples a side out of its halo, by the column fraction mx and
// the row fraction my, with what was clipped. Each call is answered, or refused.
// The names are the Rust's, and so are the parameters, but for the table's name, which `interp` takes with a fraction in place of a row.
ghost use Rattle.std.specs.Prelude.{◌≡◌, ◌+◌, ◌*◌, IfOk};
ghost use Rattle.numbers.specs.Outcome.{outcome};
ghost use Rattle.rfc6386.specs.Answer.{block_told, sample_told};
ghost use Rattle.rfc6386.specs.Filter as filter;
ghost use Rattle.rfc6386.specs.Picture.{halo_block};
ghost use Rattle.rfc6386.specs.Clips.{halo_clips};
ghost use Rattle.rfc6386.specs.Block.{interpolated, fractions_refusal, shown, counted, filtered4, filtered8, filtered16};
ghost use Rattle.steps.specs.Side.{Side};

use crate::sided::filter_square;
use numbers::Refusal;
use rfc6386::{Block, FilterSet, Sample};
use steps::rect::{Spot, Window};
use steps::step::counted_at;
use steps::tables::taps_of;
use steps::tally::{clip_of, clips_of};
use steps::way::Way;

#[tactic(auto, unfolding(rfc6386::specs::Filter::clamp255))]
pub fn clamp255(v: i32) -> u8
    ensures { result ≡ filter.clamp255 v }
{
    v.clamp(0, 255) as u8
}

// One step over six samples with row k of a table.
#[tactic(auto, unfolding(rfc6386::specs::Block::interpolated))]
pub fn interp(set: FilterSet, k: usize, support: &[u8; 6]) -> Result<Sample, Refusal>
    ensures { sample_told result ≡ interpolated set k support.now }
{
    if 7 < k {
        return Err(Refusal::Code);
    }
    let step = counted_at(support, 0, 1, taps_of(set, k));
    Ok(Sample {
        sample: step.sample,
        clip: clip_of(step.part),
    })
}

// The way of a call, whose fractions may be any numbers.
fn way_of(set: FilterSet, mx: usize, my: usize) -> Result<Way, Refusal>
    ensures refusal { outcome (λ way. 0) (λ n. n) result ≡ fractions_refusal mx my }
    ensures way { IfOk result (λ way. (way.set ≡ set) × (way.mx ≡ mx) × (way.my ≡ my)) }
{
    if 7 < mx || 7 < my {
        return Err(Refusal::Code);
    }
    Ok(Way { set, mx, my })
}

// The block of a halo.
fn filtered<const SIDE: usize, const HALO: usize, const AREA: usize>(
    halo: &[u8; HALO],
    mx: usize,
    my: usize,
    set: FilterSet,
) -> Result<Block<AREA>, Refusal>
    requires side { Side SIDE }
    requires halo_len { HALO ≡ (SIDE + 5) * (SIDE + 5) }
    requires area { AREA ≡ SIDE * SIDE }
    ensures { block_told result ≡ record { number = fractions_refusal mx my; clips = counted (fractions_refusal mx my) (halo_clips SIDE set halo.now mx my); samples = shown AREA (fractions_refusal mx my) (halo_block SIDE set halo.now mx my) } }
{
    let way = way_of(set, mx, my)?;
    let mut samples = [0u8; AREA];
    let whole = Window {
        at: 0,
        pitch: SIDE + 5,
    };
    let all = Spot {
        stride: SIDE,
        x: 0,
        y: 0,
    };
    let tally = filter_square::<SIDE>(halo, whole, way, &mut samples, all);
    Ok(Block {
        samples,
        clips: clips_of(tally),
    })
}

#[tactic(auto, unfolding(rfc6386::specs::Block::filtered4))]
pub fn sixtap_2d(
    halo: &[u8; 81],
    mx: usize,
    my: usize,
    set: FilterSet,
) -> Result<Block<16>, Refusal>
    ensures { block_told result ≡ filtered4 set halo.now mx my }
{
    filtered::<4, 81, 16>(halo, mx, my, set)
}

#[tactic(auto, unfolding(rfc6386::specs::Block::filtered8))]
pub fn sixtap_mb_chroma(
    halo: &[u8; 169],
    mx: usize,
    my: usize,
    set: FilterSet,
) -> Result<Block<64>, Refusal>
    ensures { block_told result ≡ filtered8 set halo.now mx my }
{
    filtered::<8, 169, 64>(halo, mx, my, set)
}

#[tactic(auto, unfolding(rfc6386::specs::Block::filtered16))]
pub fn sixtap_mb_luma(
    halo: &[u8; 441],
    mx: usize,
    my: usize,
    set: FilterSet,
) -> Result<Block<256>, Refusal>
    ensures { block_told result ≡ filtered16 set halo.now mx my }
{
    filtered::<16, 441, 256>(halo, mx, my, set)
}
