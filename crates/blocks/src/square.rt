// The samples of a square of a plane: n by n from column x0, row y0 on, inside the picture or out of it. Outside it
// the nearest edge is repeated.
// How wide the square is and how much is clamped are numbers apart: in a record such numbers kept the compiler from making a copy for each width, and
// whole pixels took 1849 instructions for 594. That a start is `Near` is a clause: callers take 2 from it, so that a type of it would be made anew.
ghost use Rattle.std.specs.Prelude.{◌≡◌, true, ◌+◌, ◌*◌, ◌<◌, ◌≤◌, length, pos, ◌+ℤ◌};
ghost use Rattle.rfc6386.specs.Number.{clamped};
ghost use Rattle.rfc6386.specs.Vector.{whole_part};
ghost use Rattle.rfc6386.specs.Picture.{image, square, pixels, halo};
ghost use Rattle.rfc6386.specs.Fetched.{square_of, pixels_of, halo_of};
ghost use Rattle.steps.specs.Rows.{Room};
ghost use Rattle.steps.specs.Side.{Side};
ghost use Rattle.steps.specs.Window.{put};
ghost use Rattle.blocks.specs.Lents.{plane_in};
ghost use Rattle.blocks.specs.Places.{Near, Inside, Source, clamped_row, clamped_rect, plane_at};

use crate::lent::Lent;
use crate::place::Place;
use motion_vectors::whole_part;
use rfc6386::Mv;
use steps::rect::{Spot, Window, copy_rect};

// Place src + k, clamped to 0 .. size - 1.
fn clamp_at(src: i64, k: usize, size: usize) -> usize
    requires near { Near src }
    requires k_bound { k ≤ 21 }
    requires le_size { (1 ≤ size) × (size ≤ 16384) }
    ensures { (result ≡ clamped (src +ℤ pos k) size) × (result < size) }
{
    (src + k as i64).clamp(0, size as i64 - 1) as usize
}

// n clamped samples of the row that starts at `at` in the plane, to out from `to` on.
fn clamped_row(plane: &[u8], at: usize, w: usize, x0: i64, n: usize, out: &mut [u8], to: usize)
    requires near { Near x0 }
    requires n_bound { n ≤ 21 }
    requires le_w { (1 ≤ w) × (w ≤ 16384) }
    requires w_in_bounds { at + w ≤ length plane.now }
    requires n_in_bounds { to + n ≤ length out.old }
    ensures { out.new ≡ clamped_row plane.now at w x0 n out.old to }
{
    for c in 0..n {
        out[to + c] = plane[at + clamp_at(x0, c, w)];
    }
}

// `rows` rows of `cols` clamped samples, to the first rows * cols bytes of out.
pub fn clamped(plane: &[u8], at: Place, x0: i64, y0: i64, cols: usize, rows: usize, out: &mut [u8])
    requires source { Source (plane_at plane.now at) x0 y0 }
    requires cols_bound { cols ≤ 21 }
    requires rows_bound { rows ≤ 21 }
    requires cols_in_bounds { rows * cols ≤ length out.old }
    ensures { out.new ≡ clamped_rect (plane_at plane.now at) x0 y0 cols rows out.old }
{
    for r in 0..rows {
        let from = clamp_at(y0, r, at.h) * at.stride;
        clamped_row(plane, from, at.w, x0, cols, out, r * cols);
    }
}

// All n places from src on lie in 0 .. size - 1, the last one included.
pub fn inside(src: i64, n: usize, size: usize) -> bool
    requires near { Near src }
    requires size_bound { size ≤ 16384 }
    ensures { result ≡ true → Inside src n size }
{
    0 <= src && n <= size && src as usize <= size - n
}

// The square of n samples a side from column x0, row y0 on, put into a rectangle of out; gives how many samples it fetched. Where all of it
// lies inside, nothing needs clamping. Elsewhere `rows` rows of `cols` samples, n or little more, are clamped and the corner taken: clamped straight
// into out, or with some counts, the compiler unrolls both ways into single bytes, and whole pixels took 1719 instructions for 941; the callers' are
// the least that do not.
fn fetch(
    lent: Lent<'_>,
    x0: i64,
    y0: i64,
    n: usize,
    cols: usize,
    rows: usize,
    out: &mut [u8],
    spot: Spot,
) -> u64
    requires source { Source (plane_in lent) x0 y0 }
    requires le_n { (1 ≤ n) × (n ≤ cols) × (cols ≤ 21) }
    requires n_le_rows { (n ≤ rows) × (rows ≤ 21) }
    requires room { Room (length out.old) spot.stride spot.x spot.y n n }
    ensures out_after { out.new ≡ put out.old spot n (square n (image (plane_in lent.entry)) x0 y0) }
    ensures value { result ≡ length (square_of n lent.entry.at.w lent.entry.at.h x0 y0) }
{
    let at = lent.at;
    if inside(x0, n, at.w) && inside(y0, n, at.h) {
        let from = Window {
            at: (y0 as usize) * at.stride + (x0 as usize),
            pitch: at.stride,
        };
        copy_rect(out, spot, n, n, lent.plane, from);
        return (n * n) as u64;
    }
    let mut wide = [0u8; 441];
    clamped(lent.plane, at, x0, y0, cols, rows, &mut wide);
    let corner = Window { at: 0, pitch: cols };
    copy_rect(out, spot, n, n, &wide, corner);
    (n * n) as u64
}

// Where a block's samples start on one axis, at whole pixels.
pub fn origin(at: usize, m: i16) -> i64
    requires { at < 16384 }
    ensures { result ≡ pos at +ℤ whole_part m }
{
    (at as i64) + whole_part(m)
}

// The square of n samples a side that a vector moves to, at whole pixels, put into a rectangle of out: `fetch` says what `cols` and `rows` are.
pub fn fetch_pixels(
    lent: Lent<'_>,
    mv: Mv,
    n: usize,
    cols: usize,
    rows: usize,
    out: &mut [u8],
    spot: Spot,
) -> u64
    requires le_n { (1 ≤ n) × (n ≤ cols) × (cols ≤ 21) }
    requires n_le_rows { (n ≤ rows) × (rows ≤ 21) }
    requires room { Room (length out.old) spot.stride spot.x spot.y n n }
    ensures out_after { out.new ≡ put out.old spot n (square n (image (plane_in lent.entry)) (pos lent.entry.at.x +ℤ whole_part mv.col) (pos lent.entry.at.y +ℤ whole_part mv.row)) }
    ensures value { result ≡ length (square_of n lent.entry.at.w lent.entry.at.h (pos lent.entry.at.x +ℤ whole_part mv.col) (pos lent.entry.at.y +ℤ whole_part mv.row)) }
{
    let x0 = origin(lent.at.x, mv.col);
    let y0 = origin(lent.at.y, mv.row);
    fetch(lent, x0, y0, n, cols, rows, out, spot)
}

// ---- the samples of a block of SIDE a side by its vector, and how many those are
// That SIDE is 4, 8 or 16 is a clause, and AREA is handed over beside it: no type says more of a const parameter, and Rattle computes none.
// At whole pixels, put into a rectangle of out.
pub fn pixels_into<const SIDE: usize>(lent: Lent<'_>, mv: Mv, out: &mut [u8], spot: Spot) -> u64
    requires side { Side SIDE }
    requires room { Room (length out.old) spot.stride spot.x spot.y SIDE SIDE }
    ensures out_after { out.new ≡ put out.old spot SIDE (pixels SIDE (image (plane_in lent.entry)) lent.entry.at.x lent.entry.at.y mv) }
    ensures value { result ≡ length (pixels_of SIDE (plane_in lent.entry) lent.entry.at.x lent.entry.at.y mv) }
{
    let count = if SIDE == 16 { SIDE } else { SIDE + 1 };
    fetch_pixels(lent, mv, SIDE, count, count, out, spot)
}

// On their own: not by a call of `pixels_into`, which the compiler turns into copies of single bytes before it knows the rectangle, so that a
// macroblock at whole pixels took 1726 instructions for 846.
pub fn pixels_of<const SIDE: usize, const AREA: usize>(
    lent: Lent<'_>,
    mv: Mv,
    fetched: &mut u64,
) -> [u8; AREA]
    requires side { Side SIDE }
    requires area { AREA ≡ SIDE * SIDE }
    ensures value { result ≡ pixels SIDE (image (plane_in lent.entry)) lent.entry.at.x lent.entry.at.y mv }
    ensures fetched_after { fetched.new ≡ length (pixels_of SIDE (plane_in lent.entry) lent.entry.at.x lent.entry.at.y mv) }
{
    let x0 = origin(lent.at.x, mv.col);
    let y0 = origin(lent.at.y, mv.row);
    let count = if SIDE == 16 { SIDE } else { SIDE + 1 };
    let mut out = [0u8; AREA];
    let whole = Spot {
        stride: SIDE,
        x: 0,
        y: 0,
    };
    *fetched = fetch(lent, x0, y0, SIDE, count, count, &mut out, whole);
    out
}

// With the halo, two before and three after. Its clauses name another definition than those of `pixels_of`, so the two stay apart.
pub fn halo_of<const SIDE: usize, const AREA: usize>(
    lent: Lent<'_>,
    mv: Mv,
    fetched: &mut u64,
) -> [u8; AREA]
    requires side { Side SIDE }
    requires area { AREA ≡ (SIDE + 5) * (SIDE + 5) }
    ensures value { result ≡ halo SIDE (image (plane_in lent.entry)) lent.entry.at.x lent.entry.at.y mv }
    ensures fetched_after { fetched.new ≡ length (halo_of SIDE (plane_in lent.entry) lent.entry.at.x lent.entry.at.y mv) }
{
    let n = SIDE + 5;
    // with 9 rows of the smallest a fetch inside the picture took 819 instructions for 321
    let rows = if SIDE == 4 { n + 3 } else { n };
    let x0 = origin(lent.at.x, mv.col) - 2;
    let y0 = origin(lent.at.y, mv.row) - 2;
    let mut out = [0u8; AREA];
    let whole = Spot {
        stride: n,
        x: 0,
        y: 0,
    };
    *fetched = fetch(lent, x0, y0, n, n, rows, &mut out, whole);
    out
}
