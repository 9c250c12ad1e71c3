// A block of 4 by 4 samples out of a window of 9 by 9. A row of 4 is too short for vector code, so columns are gathered first: copies of the
// window, each a column further, one behind the other, over which a pass is one line.
ghost use Rattle.std.specs.Prelude.{◌≡◌, ◌+◌, ◌*◌, ◌≤◌, length, get_or};
ghost use Rattle.rfc6386.specs.Raster.{written};
ghost use Rattle.rfc6386.specs.Picture.{halo_block};
ghost use Rattle.rfc6386.specs.Clips.{halo_clips};
ghost use Rattle.steps.specs.Rows.{Room, Held};
ghost use Rattle.steps.specs.Tally.{tally_of};
ghost use Rattle.steps.specs.Window.{window_block, window_clips, put};
ghost use Rattle.steps.specs.View.{view_list};

use rfc6386::FilterSet;
use steps::lines::{first_line, last_line, line, mix_line};
use steps::rect::{Spot, Window, copy_part, copy_rect};
use steps::tables::taps_of;
use steps::view::View;
use steps::way::Way;

// `rows` rows of 4 samples of a view, from its row `down`, column `right` on, to rows of 4 of `a` from row y on.
fn gather(a: &mut [u8], y: usize, rows: usize, view: View<9>, down: usize, right: usize)
    requires rows_in_bounds { (y + rows) * 4 ≤ length a.old }
    requires down_in_view { (1 ≤ rows) × (down + rows ≤ 9) }
    requires right_in_view { right ≤ 5 }
    ensures { a.new ≡ written a.old 4 0 y 4 rows (λ r c. get_or view.entry.src.now (view.entry.window.at + down * view.entry.window.pitch + right + r * view.entry.window.pitch + c) 0) }
{
    copy_part(a, Spot { stride: 4, x: 0, y }, 4, rows, view, down, right);
}

// Both passes of six taps. Row 9 of each copy is never read: 40 samples are a count that vectors divide.
fn two(view: View<9>, way: Way, tally: &mut u32) -> [u8; 16]
    requires le_my { 1 ≤ way.my }
    ensures value { result ≡ halo_block 4 FilterSet.Sixtap (view_list 9 view.entry) way.mx way.my }
    ensures tally_after { tally.new ≡ tally_of (halo_clips 4 FilterSet.Sixtap (view_list 9 view.entry) way.mx way.my) }
{
    let tx = taps_of(FilterSet::Sixtap, way.mx);
    let ty = taps_of(FilterSet::Sixtap, way.my);
    let mut a = [0u8; 240];
    for k in 0..6 {
        gather(&mut a, k * 10, 9, view, 0, k);
    }
    let mut m = [0u16; 40];
    first_line(&a, 0, 40, &mut m, 0, 40, tx);
    let mut block = [0u8; 16];
    *tally = last_line(&m, 0, 4, &mut block, 0, 16, ty) as u32;
    block
}

// The first pass alone, which is enough where the row fraction is 0.
fn across(view: View<9>, way: Way, tally: &mut u32) -> [u8; 16]
    ensures value { result ≡ halo_block 4 FilterSet.Sixtap (view_list 9 view.entry) way.mx 0 }
    ensures tally_after { tally.new ≡ tally_of (halo_clips 4 FilterSet.Sixtap (view_list 9 view.entry) way.mx 0) }
{
    let t = taps_of(FilterSet::Sixtap, way.mx);
    let mut a = [0u8; 96];
    for k in 0..6 {
        gather(&mut a, k * 4, 4, view, 2, k);
    }
    let mut block = [0u8; 16];
    *tally = line(&a, 0, 16, &mut block, 0, 16, t) as u32;
    block
}

// The second pass alone, which is enough where the column fraction is 0.
fn down(view: View<9>, way: Way, tally: &mut u32) -> [u8; 16]
    ensures value { result ≡ halo_block 4 FilterSet.Sixtap (view_list 9 view.entry) 0 way.my }
    ensures tally_after { tally.new ≡ tally_of (halo_clips 4 FilterSet.Sixtap (view_list 9 view.entry) 0 way.my) }
{
    let t = taps_of(FilterSet::Sixtap, way.my);
    let mut columns = [0u8; 36];
    gather(&mut columns, 0, 9, view, 0, 2);
    let mut block = [0u8; 16];
    *tally = line(&columns, 0, 4, &mut block, 0, 16, t) as u32;
    block
}

// Both passes of two taps, which clip nothing.
#[tactic(auto, using(steps::proofs::Laws::Mixing::middle))]
fn mixed(view: View<9>, way: Way) -> [u8; 16]
    ensures { result ≡ halo_block 4 FilterSet.Bilinear (view_list 9 view.entry) way.mx way.my }
{
    let tx = taps_of(FilterSet::Bilinear, way.mx);
    let ty = taps_of(FilterSet::Bilinear, way.my);
    let mut a = [0u8; 48];
    gather(&mut a, 0, 5, view, 2, 2);
    gather(&mut a, 6, 5, view, 2, 3);
    let mut m = [0u8; 24];
    mix_line(&a, 0, 24, &mut m, 0, 24, tx);
    let mut block = [0u8; 16];
    mix_line(&m, 0, 4, &mut block, 0, 16, ty);
    block
}

// The block, put in its place, and its tally. Each way puts its own: a block that a branching function returns by value is taken apart into
// bytes.
fn six_tile(view: View<9>, way: Way, out: &mut [u8], spot: Spot) -> u32
    requires room { Room (length out.old) spot.stride spot.x spot.y 4 4 }
    ensures out_after { out.new ≡ put out.old spot 4 (halo_block 4 FilterSet.Sixtap (view_list 9 view.entry) way.mx way.my) }
    ensures value { result ≡ tally_of (halo_clips 4 FilterSet.Sixtap (view_list 9 view.entry) way.mx way.my) }
{
    let whole = Window { at: 0, pitch: 4 };
    let mut tally: u32 = 0;
    if way.mx == 0 {
        let block = down(view, way, &mut tally);
        copy_rect(out, spot, 4, 4, &block, whole);
        return tally;
    }
    if way.my == 0 {
        let block = across(view, way, &mut tally);
        copy_rect(out, spot, 4, 4, &block, whole);
        return tally;
    }
    let block = two(view, way, &mut tally);
    copy_rect(out, spot, 4, 4, &block, whole);
    tally
}

#[tactic(auto, using(steps::proofs::Laws::Tallies::window_bilinear))]
pub fn filter_tile(src: &[u8], window: Window, way: Way, out: &mut [u8], spot: Spot) -> u32
    requires held { Held (length src.now) window.at window.pitch 9 9 }
    requires room { Room (length out.old) spot.stride spot.x spot.y 4 4 }
    ensures out_after { out.new ≡ put out.old spot 4 (window_block 4 src.now window way) }
    ensures value { result ≡ tally_of (window_clips 4 src.now window way) }
{
    let view = View { src, window };
    match way.set {
        FilterSet::Sixtap => six_tile(view, way, out, spot),
        FilterSet::Bilinear => {
            let block = mixed(view, way);
            copy_rect(out, spot, 4, 4, &block, Window { at: 0, pitch: 4 });
            0
        }
    }
}
