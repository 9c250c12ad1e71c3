// Blocks of 4 and 16 samples a side, fetched and filtered.
ghost use Rattle.std.specs.Prelude.{◌≡◌, length};
ghost use Rattle.numbers.specs.Outcome.{told};
ghost use Rattle.rfc6386.specs.Answer.{block_told};
ghost use Rattle.rfc6386.specs.Picture as picture;
ghost use Rattle.rfc6386.specs.Block.{plane_of, block4, Into};
ghost use Rattle.steps.specs.Rows.{Room};
ghost use Rattle.steps.specs.Window.{put};
ghost use Rattle.blocks.specs.Lents.{plane_in};
ghost use Rattle.blocks.specs.Places.{WayOf};
ghost use Rattle.blocks.specs.Taken.{block_takes};

use crate::lent::Lent;
use crate::near::find;
use crate::square::{halo_of, pixels_of};
use crate::taken::{clips, took};
use fours::tile::filter_tile;
use motion_vectors::{fraction, whole_pixel_fraction_is_zero};
use numbers::Refusal;
use refusals::no_room;
use rfc6386::{Block, FilterSet, Mv};
use sixteens::wide::filter_wide;
use steps::rect::{Spot, Window, copy_rect};
use steps::way::Way;

// ---- blocks where the call is not refused: whole pixels where the vector has no fraction, else filtered, out of the plane where the halo
// lies inside it, else out of a clamped copy
// A vector and a table stay two parameters: what looks for a halo, and what fetches, takes the vector alone.
pub fn way_of(mv: Mv, set: FilterSet) -> Way
    ensures { WayOf mv set result }
{
    Way {
        set,
        mx: fraction(mv.col),
        my: fraction(mv.row),
    }
}

// A block of 4 samples a side, put into a rectangle of out; gives what it took. Not a call of `block_into`: with a second caller that is no
// longer inlined, and split took 9490 instructions for 8880.
pub fn tile_into(lent: Lent<'_>, mv: Mv, set: FilterSet, out: &mut [u8], spot: Spot) -> u64
    requires room { Room (length out.old) spot.stride spot.x spot.y 4 4 }
    ensures out_after { out.new ≡ put out.old spot 4 (picture.block 4 set (picture.image (plane_in lent.entry)) lent.entry.at.x lent.entry.at.y mv) }
    ensures value { result ≡ block_takes 4 set (plane_in lent.entry) lent.entry.at.x lent.entry.at.y mv }
{
    let mut fetched: u64 = 0;
    if whole_pixel_fraction_is_zero(mv) {
        let block = pixels_of::<4, 16>(lent, mv, &mut fetched);
        copy_rect(out, spot, 4, 4, &block, Window { at: 0, pitch: 4 });
        return fetched;
    }
    let way = way_of(mv, set);
    if let Some(found) = find(lent, mv, 9) {
        let tally = filter_tile(lent.plane, lent.window(found), way, out, spot);
        return took(found.fetched, tally);
    }
    let halo = halo_of::<4, 81>(lent, mv, &mut fetched);
    let tally = filter_tile(&halo, Window { at: 0, pitch: 9 }, way, out, spot);
    took(fetched, tally)
}

// A block of 16, by value and so not by `block_into`: put into a list, as there, a whole macroblock took 800 instructions more.
pub fn block_of_16(lent: Lent<'_>, mv: Mv, set: FilterSet, all: &mut u64) -> [u8; 256]
    ensures value { result ≡ picture.block 16 set (picture.image (plane_in lent.entry)) lent.entry.at.x lent.entry.at.y mv }
    ensures all_after { all.new ≡ block_takes 16 set (plane_in lent.entry) lent.entry.at.x lent.entry.at.y mv }
{
    if whole_pixel_fraction_is_zero(mv) {
        return pixels_of::<16, 256>(lent, mv, all);
    }
    let way = way_of(mv, set);
    let mut tally: u32 = 0;
    if let Some(found) = find(lent, mv, 21) {
        let block = filter_wide(lent.plane, lent.window(found), way, &mut tally);
        *all = took(found.fetched, tally);
        return block;
    }
    let mut fetched: u64 = 0;
    let halo = halo_of::<16, 441>(lent, mv, &mut fetched);
    let block = filter_wide(&halo, Window { at: 0, pitch: 21 }, way, &mut tally);
    *all = took(fetched, tally);
    block
}

// ---- a 4x4 block, and the same written into a lent destination
// The names and parameters are the Rust's, but for the table's name.
pub fn filter_block_4x4(
    plane: &[u8],
    stride: usize,
    w: usize,
    h: usize,
    blk_x: usize,
    blk_y: usize,
    mv: Mv,
    set: FilterSet,
) -> Result<Block<16>, Refusal>
    ensures { block_told result ≡ block4 set (plane_of plane.now stride w h) blk_x blk_y mv }
{
    let lent = Lent::tested(plane, stride, w, h, blk_x, blk_y)?;
    let mut samples = [0u8; 16];
    let whole = Spot {
        stride: 4,
        x: 0,
        y: 0,
    };
    let all = tile_into(lent, mv, set, &mut samples, whole);
    Ok(Block {
        samples,
        clips: clips(all),
    })
}

// Writes the block's 16 bytes at column dst_x, row dst_y of dst, and no others; nothing where it refuses.
pub fn filter_block_4x4_into(
    dst: &mut [u8],
    dst_stride: usize,
    dst_x: usize,
    dst_y: usize,
    plane: &[u8],
    stride: usize,
    w: usize,
    h: usize,
    blk_x: usize,
    blk_y: usize,
    mv: Mv,
    set: FilterSet,
) -> Result<(), Refusal>
    ensures { Into set (plane_of plane.now stride w h) blk_x blk_y mv dst.old dst_stride dst_x dst_y (told result) dst.new }
{
    let lent = Lent::tested(plane, stride, w, h, blk_x, blk_y)?;
    if no_room(dst.len(), dst_stride, dst_x, dst_y) {
        return Err(Refusal::Room);
    }
    let spot = Spot {
        stride: dst_stride,
        x: dst_x,
        y: dst_y,
    };
    tile_into(lent, mv, set, dst, spot);
    Ok(())
}
