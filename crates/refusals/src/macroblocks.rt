// The tests of a macroblock: each is made of all planes before the next is made of any.
ghost use Rattle.std.specs.Prelude.{◌≡◌, ◌||◌, false, ◌*◌, ◌≤◌, leb, length};
ghost use Rattle.numbers.specs.Outcome.{told};
ghost use Rattle.rfc6386.specs.Refusal as numbers;
ghost use Rattle.rfc6386.specs.Refusal.{bad_stride, too_few};
ghost use Rattle.rfc6386.specs.Refusal.{Sized};
ghost use Rattle.rfc6386.specs.Macroblock as macroblock;

use crate::planes::{bad_stride, out_of_range, too_few};
use numbers::Refusal;
use rfc6386::Sizes;

// ---- a macroblock
// The picture has no macroblocks, or more than 1024 in a row or column.
fn size_out(sizes: Sizes) -> bool
    ensures { result ≡ (numbers.outside 1024 sizes.mb_cols || numbers.outside 1024 sizes.mb_rows) }
{
    out_of_range(1024, sizes.mb_cols) || out_of_range(1024, sizes.mb_rows)
}

// The macroblock lies outside the picture.
fn place_out(sizes: Sizes, mb_col: usize, mb_row: usize) -> bool
    ensures { result ≡ (leb sizes.mb_cols mb_col || leb sizes.mb_rows mb_row) }
{
    sizes.mb_cols <= mb_col || sizes.mb_rows <= mb_row
}

// A stride of any plane is at fault.
fn stride_out(sizes: Sizes) -> bool
    requires { Sized sizes.mb_cols sizes.mb_rows }
    ensures value { result ≡ (bad_stride sizes.y_stride (sizes.mb_cols * 16) || (bad_stride sizes.u_stride (sizes.mb_cols * 8) || bad_stride sizes.v_stride (sizes.mb_cols * 8))) }
    ensures y_stride_bound { result ≡ false → (sizes.y_stride ≤ 32768) × (sizes.u_stride ≤ 32768) × (sizes.v_stride ≤ 32768) }
{
    if bad_stride(sizes.y_stride, sizes.mb_cols * 16) {
        return true;
    }
    if bad_stride(sizes.u_stride, sizes.mb_cols * 8) {
        return true;
    }
    bad_stride(sizes.v_stride, sizes.mb_cols * 8)
}

// Any plane has too few.
fn length_out(y: usize, u: usize, v: usize, sizes: Sizes) -> bool
    requires sized { Sized sizes.mb_cols sizes.mb_rows }
    requires y_stride_bound { (sizes.y_stride ≤ 32768) × (sizes.u_stride ≤ 32768) × (sizes.v_stride ≤ 32768) }
    ensures { result ≡ (too_few y sizes.y_stride (sizes.mb_cols * 16) (sizes.mb_rows * 16) || (too_few u sizes.u_stride (sizes.mb_cols * 8) (sizes.mb_rows * 8) || too_few v sizes.v_stride (sizes.mb_cols * 8) (sizes.mb_rows * 8))) }
{
    if too_few(y, sizes.y_stride, sizes.mb_cols * 16, sizes.mb_rows * 16) {
        return true;
    }
    if too_few(u, sizes.u_stride, sizes.mb_cols * 8, sizes.mb_rows * 8) {
        return true;
    }
    too_few(v, sizes.v_stride, sizes.mb_cols * 8, sizes.mb_rows * 8)
}

// Numbers 1 to 4 of a call on a macroblock.
// The planes, their sizes and the place are parameters of their own, by a rule of the project: the core takes plain slices.
#[tactic(auto, unfolding(rfc6386::specs::Macroblock::refusal))]
pub fn refusal(
    y: &[u8],
    u: &[u8],
    v: &[u8],
    sizes: Sizes,
    mb_col: usize,
    mb_row: usize,
) -> Result<(), Refusal>
    ensures { told result ≡ macroblock.refusal (macroblock.lent y.now u.now v.now sizes) mb_col mb_row }
{
    if size_out(sizes) {
        return Err(Refusal::Size);
    }
    if stride_out(sizes) {
        return Err(Refusal::Stride);
    }
    if length_out(y.len(), u.len(), v.len(), sizes) {
        return Err(Refusal::Length);
    }
    if place_out(sizes, mb_col, mb_row) {
        return Err(Refusal::Position);
    }
    Ok(())
}
