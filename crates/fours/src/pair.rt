// Two blocks of 4 by 4 samples out of two windows with the same fractions, as a split macroblock's U and V: four columns of each side by
// side, so that vectors are full.
//
// `two`, `across`, `down`, `mixed` and `six_pair` are not one function each with their likes in `tile`: the lengths of the arrays are so many for
// each window, and Rattle computes no const argument, so that a call would name three or four of them; and what is read and left, one block or
// two side by side, would need a trait with laws, longer than what it replaces.
ghost use Rattle.std.specs.Prelude.{◌≡◌, ◌+◌, ◌*◌, ◌≤◌, length, get_or};
ghost use Rattle.rfc6386.specs.Raster.{written};
ghost use Rattle.rfc6386.specs.Picture.{halo_block};
ghost use Rattle.rfc6386.specs.Clips.{halo_clips};
ghost use Rattle.steps.specs.Rows.{Held};
ghost use Rattle.steps.specs.Tally.{tally_of};
ghost use Rattle.steps.specs.Window.{window_block, window_clips, beside};
ghost use Rattle.steps.specs.View.{view_list};

use rfc6386::FilterSet;
use steps::lines::{first_line, last_line, line, mix_line};
use steps::rect::{Spot, Window, copy_part, copy_rect};
use steps::tables::taps_of;
use steps::view::View;
use steps::way::Way;

// `rows` rows of 4 samples of each view, from its row `down`, column `right` on, side by side in rows of 8 of `a` from row y on.
// Both views are parameters here and below: a record of them would say nothing that a `View` does not.
fn gather(a: &mut [u8], y: usize, rows: usize, u: View<9>, v: View<9>, down: usize, right: usize)
    requires rows_in_bounds { (y + rows) * 8 ≤ length a.old }
    requires down_in_view { (1 ≤ rows) × (down + rows ≤ 9) }
    requires right_in_view { right ≤ 5 }
    ensures { a.new ≡ written (written a.old 8 0 y 4 rows (λ r c. get_or u.entry.src.now (u.entry.window.at + down * u.entry.window.pitch + right + r * u.entry.window.pitch + c) 0)) 8 4 y 4 rows (λ r c. get_or v.entry.src.now (v.entry.window.at + down * v.entry.window.pitch + right + r * v.entry.window.pitch + c) 0) }
{
    copy_part(a, Spot { stride: 8, x: 0, y }, 4, rows, u, down, right);
    copy_part(a, Spot { stride: 8, x: 4, y }, 4, rows, v, down, right);
}

// Both passes of six taps.
fn two(u: View<9>, v: View<9>, way: Way, tally: &mut u32) -> [u8; 32]
    requires le_my { 1 ≤ way.my }
    ensures value { result ≡ beside 4 (halo_block 4 FilterSet.Sixtap (view_list 9 u.entry) way.mx way.my) (halo_block 4 FilterSet.Sixtap (view_list 9 v.entry) way.mx way.my) }
    ensures tally_after { tally.new ≡ tally_of (halo_clips 4 FilterSet.Sixtap (view_list 9 u.entry) way.mx way.my) + tally_of (halo_clips 4 FilterSet.Sixtap (view_list 9 v.entry) way.mx way.my) }
{
    let tx = taps_of(FilterSet::Sixtap, way.mx);
    let ty = taps_of(FilterSet::Sixtap, way.my);
    let mut a = [0u8; 480];
    // No `gather`: by it the compiler joins rows of both before it unrolls the loop, which took a quarter more instructions.
    for k in 0..6 {
        let y = k * 10;
        copy_rect(
            &mut a,
            Spot { stride: 8, x: 0, y },
            4,
            9,
            u.src,
            Window {
                at: u.window.at + k,
                pitch: u.window.pitch,
            },
        );
        copy_rect(
            &mut a,
            Spot { stride: 8, x: 4, y },
            4,
            9,
            v.src,
            Window {
                at: v.window.at + k,
                pitch: v.window.pitch,
            },
        );
    }
    let mut m = [0u16; 80];
    first_line(&a, 0, 80, &mut m, 0, 80, tx);
    let mut block = [0u8; 32];
    *tally = last_line(&m, 0, 8, &mut block, 0, 32, ty) as u32;
    block
}

// The first pass alone.
fn across(u: View<9>, v: View<9>, way: Way, tally: &mut u32) -> [u8; 32]
    ensures value { result ≡ beside 4 (halo_block 4 FilterSet.Sixtap (view_list 9 u.entry) way.mx 0) (halo_block 4 FilterSet.Sixtap (view_list 9 v.entry) way.mx 0) }
    ensures tally_after { tally.new ≡ tally_of (halo_clips 4 FilterSet.Sixtap (view_list 9 u.entry) way.mx 0) + tally_of (halo_clips 4 FilterSet.Sixtap (view_list 9 v.entry) way.mx 0) }
{
    let t = taps_of(FilterSet::Sixtap, way.mx);
    let mut a = [0u8; 192];
    for k in 0..6 {
        gather(&mut a, k * 4, 4, u, v, 2, k);
    }
    let mut block = [0u8; 32];
    *tally = line(&a, 0, 32, &mut block, 0, 32, t) as u32;
    block
}

// The second pass alone.
fn down(u: View<9>, v: View<9>, way: Way, tally: &mut u32) -> [u8; 32]
    ensures value { result ≡ beside 4 (halo_block 4 FilterSet.Sixtap (view_list 9 u.entry) 0 way.my) (halo_block 4 FilterSet.Sixtap (view_list 9 v.entry) 0 way.my) }
    ensures tally_after { tally.new ≡ tally_of (halo_clips 4 FilterSet.Sixtap (view_list 9 u.entry) 0 way.my) + tally_of (halo_clips 4 FilterSet.Sixtap (view_list 9 v.entry) 0 way.my) }
{
    let t = taps_of(FilterSet::Sixtap, way.my);
    let mut a = [0u8; 72];
    gather(&mut a, 0, 9, u, v, 0, 2);
    let mut block = [0u8; 32];
    *tally = line(&a, 0, 8, &mut block, 0, 32, t) as u32;
    block
}

// Both passes of two taps, which clip nothing.
#[tactic(auto, using(steps::proofs::Laws::Mixing::middle))]
fn mixed(u: View<9>, v: View<9>, way: Way) -> [u8; 32]
    ensures { result ≡ beside 4 (halo_block 4 FilterSet.Bilinear (view_list 9 u.entry) way.mx way.my) (halo_block 4 FilterSet.Bilinear (view_list 9 v.entry) way.mx way.my) }
{
    let tx = taps_of(FilterSet::Bilinear, way.mx);
    let ty = taps_of(FilterSet::Bilinear, way.my);
    let mut a = [0u8; 96];
    gather(&mut a, 0, 5, u, v, 2, 2);
    gather(&mut a, 6, 5, u, v, 2, 3);
    let mut m = [0u8; 48];
    mix_line(&a, 0, 48, &mut m, 0, 48, tx);
    let mut block = [0u8; 32];
    mix_line(&m, 0, 8, &mut block, 0, 32, ty);
    block
}

fn six_pair(u: View<9>, v: View<9>, way: Way, tally: &mut u32) -> [u8; 32]
    ensures value { result ≡ beside 4 (halo_block 4 FilterSet.Sixtap (view_list 9 u.entry) way.mx way.my) (halo_block 4 FilterSet.Sixtap (view_list 9 v.entry) way.mx way.my) }
    ensures tally_after { tally.new ≡ tally_of (halo_clips 4 FilterSet.Sixtap (view_list 9 u.entry) way.mx way.my) + tally_of (halo_clips 4 FilterSet.Sixtap (view_list 9 v.entry) way.mx way.my) }
{
    if way.mx == 0 {
        return down(u, v, way, tally);
    }
    if way.my == 0 {
        return across(u, v, way, tally);
    }
    two(u, v, way, tally)
}

// Both blocks, and in `tally` that of both.
#[tactic(auto, using(steps::proofs::Laws::Tallies::window_bilinear))]
pub fn filter_pair(
    u: &[u8],
    u_at: Window,
    v: &[u8],
    v_at: Window,
    way: Way,
    tally: &mut u32,
) -> [u8; 32]
    requires held { Held (length u.now) u_at.at u_at.pitch 9 9 }
    requires held_2 { Held (length v.now) v_at.at v_at.pitch 9 9 }
    ensures value { result ≡ beside 4 (window_block 4 u.now u_at way) (window_block 4 v.now v_at way) }
    ensures tally_after { tally.new ≡ tally_of (window_clips 4 u.now u_at way) + tally_of (window_clips 4 v.now v_at way) }
{
    let left = View {
        src: u,
        window: u_at,
    };
    let right = View {
        src: v,
        window: v_at,
    };
    match way.set {
        FilterSet::Sixtap => six_pair(left, right, way, tally),
        FilterSet::Bilinear => {
            *tally = 0;
            mixed(left, right, way)
        }
    }
}
