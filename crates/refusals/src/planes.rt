// The tests of one plane. Sums are made once the tests before them have shown that they fit.
ghost use Rattle.std.specs.Prelude.{◌≡◌, ◌||◌, false, ◌≤◌};
ghost use Rattle.numbers.specs.Outcome.{told};
ghost use Rattle.rfc6386.specs.Refusal.{outside, bad_stride, too_few, plane_refusal, no_room};
ghost use Rattle.rfc6386.specs.Block.{plane_of};

use numbers::Refusal;

// ---- one plane
// Not in 1 .. most.
pub fn out_of_range(most: usize, n: usize) -> bool
    ensures value { result ≡ outside most n }
    ensures le_n { result ≡ false → (1 ≤ n) × (n ≤ most) }
{
    !(1..=most).contains(&n)
}

pub fn bad_stride(stride: usize, w: usize) -> bool
    ensures value { result ≡ bad_stride stride w }
    ensures stride_bound { result ≡ false → stride ≤ 32768 }
{
    !(w..=32768).contains(&stride)
}

// Fewer bytes than the last sample of a plane asks for.
pub fn too_few(count: usize, stride: usize, w: usize, h: usize) -> bool
    requires stride_bound { stride ≤ 32768 }
    requires w_bound { (w ≤ 16384) × (1 ≤ h) × (h ≤ 16384) }
    ensures { result ≡ too_few count stride w h }
{
    count < (h - 1) * stride + w
}

// Numbers 1 to 4 of a call on one plane, for a block that starts at column x, row y.
// The parameters are the Rust's, as those of the calls are: before they are tested a record of them would say no more.
#[tactic(auto, unfolding(rfc6386::specs::Refusal::plane_refusal))]
pub fn plane_refusal(
    plane: &[u8],
    stride: usize,
    w: usize,
    h: usize,
    x: usize,
    y: usize,
) -> Result<(), Refusal>
    ensures { told result ≡ plane_refusal (plane_of plane.now stride w h) x y }
{
    if out_of_range(16384, w) || out_of_range(16384, h) {
        return Err(Refusal::Size);
    }
    if bad_stride(stride, w) {
        return Err(Refusal::Stride);
    }
    if too_few(plane.len(), stride, w, h) {
        return Err(Refusal::Length);
    }
    if w <= x || h <= y {
        return Err(Refusal::Position);
    }
    Ok(())
}

// A 4x4 block does not fit at column x, row y of so many bytes. The tests stand so that no sum can wrap.
pub fn no_room(len: usize, stride: usize, x: usize, y: usize) -> bool
    ensures { result ≡ no_room len stride x y }
{
    if stride < 4 {
        return true;
    }
    if stride - 4 < x {
        return true;
    }
    if 32768 < stride {
        return true;
    }
    if 16383 < y {
        return true;
    }
    len < (y + 3) * stride + x + 4
}
