// The fetches: samples of one plane at a vector's whole part, clamped to the picture, at whole pixels or with the halo that the filters need.
// Each takes every plane, size, position and vector, or refuses, and says how many samples it fetched.
// The six have the Rust's names and parameters, and the two functions that they share take the same.
ghost use Rattle.std.specs.Prelude.{◌≡◌, ◌+◌, ◌*◌, length};
ghost use Rattle.rfc6386.specs.Answer.{fetch_told};
ghost use Rattle.rfc6386.specs.Picture.{image, pixels, halo};
ghost use Rattle.rfc6386.specs.Fetched.{pixels_of, halo_of};
ghost use Rattle.rfc6386.specs.Refusal.{if_done, plane_refusal};
ghost use Rattle.rfc6386.specs.Block.{plane_of, shown, pixels4, pixels8, pixels16, halo9, halo13, halo21};
ghost use Rattle.steps.specs.Side.{Side};

use crate::lent::Lent;
use crate::square::{halo_of, pixels_of};
use numbers::Refusal;
use rfc6386::{Fetched, Mv};

// The block of SIDE samples a side at whole pixels: the fraction of the vector is left out.
fn whole_pixel<const SIDE: usize, const AREA: usize>(
    plane: &[u8],
    stride: usize,
    w: usize,
    h: usize,
    x: usize,
    y: usize,
    mv: Mv,
) -> Result<Fetched<AREA>, Refusal>
    requires side { Side SIDE }
    requires area { AREA ≡ SIDE * SIDE }
    ensures { fetch_told result ≡ record { number = plane_refusal (plane_of plane.now stride w h) x y; samples = shown AREA (plane_refusal (plane_of plane.now stride w h) x y) (pixels SIDE (image (plane_of plane.now stride w h)) x y mv); fetched = if_done (plane_refusal (plane_of plane.now stride w h) x y) (length (pixels_of SIDE (plane_of plane.now stride w h) x y mv)) 0 } }
{
    let lent = Lent::tested(plane, stride, w, h, x, y)?;
    let mut fetched: u64 = 0;
    let samples = pixels_of::<SIDE, AREA>(lent, mv, &mut fetched);
    Ok(Fetched { samples, fetched })
}

// The halo of such a block. One function for both, over how to fetch, would need a law of that closure and be no shorter.
fn with_halo<const SIDE: usize, const AREA: usize>(
    plane: &[u8],
    stride: usize,
    w: usize,
    h: usize,
    x: usize,
    y: usize,
    mv: Mv,
) -> Result<Fetched<AREA>, Refusal>
    requires side { Side SIDE }
    requires area { AREA ≡ (SIDE + 5) * (SIDE + 5) }
    ensures { fetch_told result ≡ record { number = plane_refusal (plane_of plane.now stride w h) x y; samples = shown AREA (plane_refusal (plane_of plane.now stride w h) x y) (halo SIDE (image (plane_of plane.now stride w h)) x y mv); fetched = if_done (plane_refusal (plane_of plane.now stride w h) x y) (length (halo_of SIDE (plane_of plane.now stride w h) x y mv)) 0 } }
{
    let lent = Lent::tested(plane, stride, w, h, x, y)?;
    let mut fetched: u64 = 0;
    let samples = halo_of::<SIDE, AREA>(lent, mv, &mut fetched);
    Ok(Fetched { samples, fetched })
}

// The 4x4 block at whole pixels.
#[tactic(auto, unfolding(rfc6386::specs::Block::pixels4))]
pub fn fetch_block_whole_pixel(
    plane: &[u8],
    stride: usize,
    w: usize,
    h: usize,
    blk_x: usize,
    blk_y: usize,
    mv: Mv,
) -> Result<Fetched<16>, Refusal>
    ensures { fetch_told result ≡ pixels4 (plane_of plane.now stride w h) blk_x blk_y mv }
{
    whole_pixel::<4, 16>(plane, stride, w, h, blk_x, blk_y, mv)
}

// The halo of a 4x4 block.
#[tactic(auto, unfolding(rfc6386::specs::Block::halo9))]
pub fn fetch_block_halo(
    plane: &[u8],
    stride: usize,
    w: usize,
    h: usize,
    blk_x: usize,
    blk_y: usize,
    mv: Mv,
) -> Result<Fetched<81>, Refusal>
    ensures { fetch_told result ≡ halo9 (plane_of plane.now stride w h) blk_x blk_y mv }
{
    with_halo::<4, 81>(plane, stride, w, h, blk_x, blk_y, mv)
}

// A macroblock's luma at whole pixels.
#[tactic(auto, unfolding(rfc6386::specs::Block::pixels16))]
pub fn fetch_luma_mb_whole_pixel(
    plane: &[u8],
    stride: usize,
    w: usize,
    h: usize,
    mb_x: usize,
    mb_y: usize,
    mv: Mv,
) -> Result<Fetched<256>, Refusal>
    ensures { fetch_told result ≡ pixels16 (plane_of plane.now stride w h) mb_x mb_y mv }
{
    whole_pixel::<16, 256>(plane, stride, w, h, mb_x, mb_y, mv)
}

// The halo of a macroblock's luma.
#[tactic(auto, unfolding(rfc6386::specs::Block::halo21))]
pub fn fetch_luma_mb_halo(
    plane: &[u8],
    stride: usize,
    w: usize,
    h: usize,
    mb_x: usize,
    mb_y: usize,
    mv: Mv,
) -> Result<Fetched<441>, Refusal>
    ensures { fetch_told result ≡ halo21 (plane_of plane.now stride w h) mb_x mb_y mv }
{
    with_halo::<16, 441>(plane, stride, w, h, mb_x, mb_y, mv)
}

// A macroblock's chroma at whole pixels.
#[tactic(auto, unfolding(rfc6386::specs::Block::pixels8))]
pub fn fetch_chroma_mb_whole_pixel(
    plane: &[u8],
    stride: usize,
    w: usize,
    h: usize,
    mb_x: usize,
    mb_y: usize,
    mv: Mv,
) -> Result<Fetched<64>, Refusal>
    ensures { fetch_told result ≡ pixels8 (plane_of plane.now stride w h) mb_x mb_y mv }
{
    whole_pixel::<8, 64>(plane, stride, w, h, mb_x, mb_y, mv)
}

// The halo of a macroblock's chroma.
#[tactic(auto, unfolding(rfc6386::specs::Block::halo13))]
pub fn fetch_chroma_mb_halo(
    plane: &[u8],
    stride: usize,
    w: usize,
    h: usize,
    mb_x: usize,
    mb_y: usize,
    mv: Mv,
) -> Result<Fetched<169>, Refusal>
    ensures { fetch_told result ≡ halo13 (plane_of plane.now stride w h) mb_x mb_y mv }
{
    with_halo::<8, 169>(plane, stride, w, h, mb_x, mb_y, mv)
}
