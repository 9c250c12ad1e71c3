// A block of 16 by 16 samples out of a window of 21 by 21: its rows are long enough for vector code as they stand. Its passes are not those
// of `strips`, which make a row of each of two windows a turn.
ghost use Rattle.std.specs.Prelude.{◌≡◌, ◌+◌, ◌*◌, length};
ghost use Rattle.rfc6386.specs.Raster.{raster};
ghost use Rattle.rfc6386.specs.Picture.{step_at, halo_block};
ghost use Rattle.rfc6386.specs.Sums.{sum_rows};
ghost use Rattle.rfc6386.specs.Clips.{clip_at, halo_clips};
ghost use Rattle.steps.specs.Rows.{Held};
ghost use Rattle.steps.specs.Tally.{part, tally_of};
ghost use Rattle.steps.specs.Taps.{signed_taps, Middle};
ghost use Rattle.steps.specs.Window.{window_block, window_clips, mix_at};
ghost use Rattle.steps.specs.View.{view_list};

use crate::ring::two;
use crate::two_rows::mix_rows;
use rfc6386::FilterSet;
use steps::lines::{line, mix_line};
use steps::rect::Window;
use steps::tables::taps_of;
use steps::taps::Taps;
use steps::view::View;
use steps::way::Way;

// One pass of six taps, over samples `gap` apart.
fn pass(src: &[u8], window: Window, gap: usize, t: Taps, tally: &mut u32) -> [u8; 256]
    requires held { Held (length src.now) window.at window.pitch (16 + 5 * gap) 16 }
    ensures value { result ≡ raster 16 16 (λ r c. step_at (signed_taps t) src.now (window.at + r * window.pitch + c) gap) }
    ensures tally_after { tally.new ≡ sum_rows 16 16 (λ r c. part (clip_at (signed_taps t) src.now (window.at + r * window.pitch + c) gap)) }
{
    let mut out = [0u8; 256];
    let mut sum: u32 = 0;
    for r in 0..16 {
        sum += line(
            src,
            window.at + r * window.pitch,
            gap,
            &mut out,
            r * 16,
            16,
            t,
        ) as u32;
    }
    *tally = sum;
    out
}

// One pass of two taps, over samples `gap` apart.
fn mix_pass(src: &[u8], window: Window, gap: usize, t: Taps) -> [u8; 256]
    requires middle { Middle t }
    requires held { Held (length src.now) window.at window.pitch (16 + gap) 16 }
    ensures { result ≡ raster 16 16 (mix_at t src.now window.at window.pitch gap) }
{
    let mut out = [0u8; 256];
    for r in 0..8 {
        mix_rows::<16>(
            src,
            window.at + r * window.pitch,
            src,
            window.at + (r + 8) * window.pitch,
            gap,
            t,
            &mut out,
            r * 16,
            128,
        );
    }
    out
}

// Both passes of two taps, which clip nothing: four rows a turn, out of five of the first pass.
#[tactic(auto, using(steps::proofs::Laws::Mixing::middle))]
fn mixed(halo: View<21>, way: Way) -> [u8; 256]
    ensures { result ≡ halo_block 16 FilterSet.Bilinear (view_list 21 halo.entry) way.mx way.my }
{
    let tx = taps_of(FilterSet::Bilinear, way.mx);
    let ty = taps_of(FilterSet::Bilinear, way.my);
    let src = halo.src;
    let pitch = halo.window.pitch;
    let at = halo.window.at + 2 * pitch + 2;
    let mut m = [0u8; 80];
    mix_line(src, at, 1, &mut m, 0, 16, tx);
    let mut out = [0u8; 256];
    for q in 0..4 {
        let r = q * 4;
        let upper = at + (r + 1) * pitch;
        let lower = at + (r + 3) * pitch;
        mix_rows::<16>(src, upper, src, upper + pitch, 1, tx, &mut m, 16, 16);
        mix_rows::<16>(src, lower, src, lower + pitch, 1, tx, &mut m, 48, 16);
        mix_line(&m, 0, 16, &mut out, r * 16, 64, ty);
        m.copy_within(64..80, 0);
    }
    out
}

fn six_wide(halo: View<21>, way: Way, tally: &mut u32) -> [u8; 256]
    ensures value { result ≡ halo_block 16 FilterSet.Sixtap (view_list 21 halo.entry) way.mx way.my }
    ensures tally_after { tally.new ≡ tally_of (halo_clips 16 FilterSet.Sixtap (view_list 21 halo.entry) way.mx way.my) }
{
    let window = halo.window;
    if way.mx == 0 {
        let columns = Window {
            at: window.at + 2,
            pitch: window.pitch,
        };
        return pass(
            halo.src,
            columns,
            window.pitch,
            taps_of(FilterSet::Sixtap, way.my),
            tally,
        );
    }
    if way.my == 0 {
        let rows = Window {
            at: window.at + 2 * window.pitch,
            pitch: window.pitch,
        };
        return pass(halo.src, rows, 1, taps_of(FilterSet::Sixtap, way.mx), tally);
    }
    two(halo, way, tally)
}

#[tactic(auto, using(steps::proofs::Laws::Mixing::middle))]
fn mixed_wide(halo: View<21>, way: Way) -> [u8; 256]
    ensures { result ≡ halo_block 16 FilterSet.Bilinear (view_list 21 halo.entry) way.mx way.my }
{
    let window = halo.window;
    let middle = Window {
        at: window.at + 2 * window.pitch + 2,
        pitch: window.pitch,
    };
    if way.mx == 0 {
        return mix_pass(
            halo.src,
            middle,
            window.pitch,
            taps_of(FilterSet::Bilinear, way.my),
        );
    }
    if way.my == 0 {
        return mix_pass(halo.src, middle, 1, taps_of(FilterSet::Bilinear, way.mx));
    }
    mixed(halo, way)
}

// The block, and in `tally` that of it.
pub fn filter_wide(src: &[u8], window: Window, way: Way, tally: &mut u32) -> [u8; 256]
    requires held { Held (length src.now) window.at window.pitch 21 21 }
    ensures value { result ≡ window_block 16 src.now window way }
    ensures tally_after { tally.new ≡ tally_of (window_clips 16 src.now window way) }
{
    let halo = View { src, window };
    match way.set {
        FilterSet::Sixtap => six_wide(halo, way, tally),
        FilterSet::Bilinear => {
            *tally = 0;
            mixed_wide(halo, way)
        }
    }
}
