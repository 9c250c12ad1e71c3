// Copies of rows and rectangles of samples. Every copy in this crate and in `prediction` is one of these.
ghost use Rattle.std.specs.Prelude.{◌≡◌, ◌+◌, ◌*◌, ◌≤◌, length, get_or};
ghost use Rattle.rfc6386.specs.Raster.{written};
ghost use Rattle.steps.specs.Rows.{laid, Room, Held};

use crate::view::View;

// Where rows are read: the first from `at` on, each `pitch` after the one before.
#[derive(Clone, Copy)]
pub struct Window {
    pub at: usize,
    pub pitch: usize,
}

// Where rows are written: from column x, row y on, in rows of `stride`.
// That they lie in a list is asked (`Room`): a record with a `&mut` list would make each contract say that the list is still the same one.
#[derive(Clone, Copy)]
pub struct Spot {
    pub stride: usize,
    pub x: usize,
    pub y: usize,
}

// n samples of src from `from` on, to dst from `to` on. No `copy_from_slice`: where n is known only when running, it is a call for each row,
// and took twice the time for rows of 4 and of 8 samples.
#[tactic(auto, using(crate::proofs::Laws::Copying::laying))]
pub fn copy_row(dst: &mut [u8], to: usize, src: &[u8], from: usize, n: usize)
    requires n_in_bounds { to + n ≤ length dst.old }
    requires n_in_bounds_2 { from + n ≤ length src.now }
    ensures { dst.new ≡ laid dst.old to n (λ c. get_or src.now (from + c) 0) }
{
    for c in 0..n {
        dst[to + c] = src[from + c];
    }
}

// `rows` rows of w samples.
pub fn copy_rect(dst: &mut [u8], spot: Spot, w: usize, rows: usize, src: &[u8], window: Window)
    requires room { Room (length dst.old) spot.stride spot.x spot.y w rows }
    requires held { Held (length src.now) window.at window.pitch w rows }
    ensures { dst.new ≡ written dst.old spot.stride spot.x spot.y w rows (λ r c. get_or src.now (window.at + r * window.pitch + c) 0) }
{
    for r in 0..rows {
        copy_row(
            dst,
            (spot.y + r) * spot.stride + spot.x,
            src,
            window.at + r * window.pitch,
            w,
        );
    }
}

// `rows` rows of w samples of a view, from its row `down`, column `right` on.
pub fn copy_part<const SIDE: usize>(
    dst: &mut [u8],
    spot: Spot,
    w: usize,
    rows: usize,
    view: View<SIDE>,
    down: usize,
    right: usize,
)
    requires room { Room (length dst.old) spot.stride spot.x spot.y w rows }
    requires down_in_view { (1 ≤ rows) × (down + rows ≤ SIDE) }
    requires right_in_view { right + w ≤ SIDE }
    ensures { dst.new ≡ written dst.old spot.stride spot.x spot.y w rows (λ r c. get_or view.entry.src.now (view.entry.window.at + down * view.entry.window.pitch + right + r * view.entry.window.pitch + c) 0) }
{
    let window = Window {
        at: view.window.at + down * view.window.pitch + right,
        pitch: view.window.pitch,
    };
    copy_rect(dst, spot, w, rows, view.src, window);
}
