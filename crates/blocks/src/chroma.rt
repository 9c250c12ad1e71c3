// The two chroma planes of a macroblock together: they have one vector, and side by side they fill vectors of the processor.
ghost use Rattle.std.specs.Prelude.{◌≡◌, false, ◌+◌, ◌*◌, length, get_or};
ghost use Rattle.rfc6386.specs.Raster.{raster};
ghost use Rattle.rfc6386.specs.Vector.{is_whole};
ghost use Rattle.rfc6386.specs.Picture as picture;
ghost use Rattle.steps.specs.Rows.{Room};
ghost use Rattle.steps.specs.Window.{put, beside};
ghost use Rattle.blocks.specs.Lents.{plane_in};
ghost use Rattle.blocks.specs.Taken.{block_takes};

use crate::block::way_of;
use crate::chroma_lent::ChromaLent;
use crate::near::find;
use crate::square::{halo_of, pixels_of};
use crate::taken::took;
use fours::pair::filter_pair;
use motion_vectors::whole_pixel_fraction_is_zero;
use rfc6386::{FilterSet, Mv};
use sixteens::strips::filter_strips;
use steps::rect::{Spot, Window, copy_rect};

// The samples of both, apart as `ReconstructedMb` has them.
#[derive(Clone, Copy)]
pub struct Chroma {
    pub u: [u8; 64],
    pub v: [u8; 64],
}

// Two strips of eight rows, each on its own.
fn apart(strips: &[u8; 128]) -> Chroma
    ensures { result ≡ record { u = raster 8 8 (λ r c. get_or strips.now (0 + r * 16 + c) 0); v = raster 8 8 (λ r c. get_or strips.now (8 + r * 16 + c) 0) } }
{
    let mut u = [0u8; 64];
    let mut v = [0u8; 64];
    let spot = Spot {
        stride: 8,
        x: 0,
        y: 0,
    };
    copy_rect(&mut u, spot, 8, 8, strips, Window { at: 0, pitch: 16 });
    copy_rect(&mut v, spot, 8, 8, strips, Window { at: 8, pitch: 16 });
    Chroma { u, v }
}

// The blocks of 8 samples a side. They and those of 4 are not one function over the side, since the filters leave arrays of two sizes: both put
// into rectangles took a whole macroblock at whole pixels from 941 instructions to 2036.
pub fn blocks_of_8(chroma: ChromaLent<'_>, mv: Mv, set: FilterSet, all: &mut u64) -> Chroma
    ensures value { result ≡ record { u = picture.block 8 set (picture.image (plane_in chroma.entry.u)) chroma.entry.u.at.x chroma.entry.u.at.y mv; v = picture.block 8 set (picture.image (plane_in chroma.entry.v)) chroma.entry.v.at.x chroma.entry.v.at.y mv } }
    ensures all_after { all.new ≡ block_takes 8 set (plane_in chroma.entry.u) chroma.entry.u.at.x chroma.entry.u.at.y mv + block_takes 8 set (plane_in chroma.entry.v) chroma.entry.v.at.x chroma.entry.v.at.y mv }
{
    let mut u_fetched: u64 = 0;
    let mut v_fetched: u64 = 0;
    if whole_pixel_fraction_is_zero(mv) {
        let u = pixels_of::<8, 64>(chroma.u, mv, &mut u_fetched);
        let v = pixels_of::<8, 64>(chroma.v, mv, &mut v_fetched);
        *all = u_fetched + v_fetched;
        return Chroma { u, v };
    }
    let way = way_of(mv, set);
    let mut tally: u32 = 0;
    if let Some(found) = find(chroma.u, mv, 13) {
        let u_from = chroma.u.window(found);
        let v_from = chroma.v.window(found);
        let strips = filter_strips(
            chroma.u.plane,
            u_from,
            chroma.v.plane,
            v_from,
            8,
            way,
            &mut tally,
        );
        *all = took(found.fetched + found.fetched, tally);
        return apart(&strips);
    }
    let u_halo = halo_of::<8, 169>(chroma.u, mv, &mut u_fetched);
    let v_halo = halo_of::<8, 169>(chroma.v, mv, &mut v_fetched);
    let whole = Window { at: 0, pitch: 13 };
    let strips = filter_strips(&u_halo, whole, &v_halo, whole, 8, way, &mut tally);
    *all = took(u_fetched + v_fetched, tally);
    apart(&strips)
}

// Blocks of 4 samples a side, put into rectangles of u_out and v_out; gives what they took.
pub fn pair_into(
    chroma: ChromaLent<'_>,
    mv: Mv,
    set: FilterSet,
    u_out: &mut [u8],
    v_out: &mut [u8],
    spot: Spot,
) -> u64
    requires room { Room (length u_out.old) spot.stride spot.x spot.y 4 4 }
    requires room_2 { Room (length v_out.old) spot.stride spot.x spot.y 4 4 }
    ensures u_out_after { u_out.new ≡ put u_out.old spot 4 (picture.block 4 set (picture.image (plane_in chroma.entry.u)) chroma.entry.u.at.x chroma.entry.u.at.y mv) }
    ensures v_out_after { v_out.new ≡ put v_out.old spot 4 (picture.block 4 set (picture.image (plane_in chroma.entry.v)) chroma.entry.v.at.x chroma.entry.v.at.y mv) }
    ensures value { result ≡ block_takes 4 set (plane_in chroma.entry.u) chroma.entry.u.at.x chroma.entry.u.at.y mv + block_takes 4 set (plane_in chroma.entry.v) chroma.entry.v.at.x chroma.entry.v.at.y mv }
{
    if whole_pixel_fraction_is_zero(mv) {
        let whole = Window { at: 0, pitch: 4 };
        let mut u_fetched: u64 = 0;
        let mut v_fetched: u64 = 0;
        let u_block = pixels_of::<4, 16>(chroma.u, mv, &mut u_fetched);
        let v_block = pixels_of::<4, 16>(chroma.v, mv, &mut v_fetched);
        copy_rect(u_out, spot, 4, 4, &u_block, whole);
        copy_rect(v_out, spot, 4, 4, &v_block, whole);
        return u_fetched + v_fetched;
    }
    let mut all: u64 = 0;
    let pair = pair_of(chroma, mv, set, &mut all);
    copy_rect(u_out, spot, 4, 4, &pair, Window { at: 0, pitch: 8 });
    copy_rect(v_out, spot, 4, 4, &pair, Window { at: 4, pitch: 8 });
    all
}

// The same filtered, side by side, where the vector has a fraction.
fn pair_of(chroma: ChromaLent<'_>, mv: Mv, set: FilterSet, all: &mut u64) -> [u8; 32]
    requires mv_value { is_whole mv ≡ false }
    ensures value { result ≡ beside 4 (picture.block 4 set (picture.image (plane_in chroma.entry.u)) chroma.entry.u.at.x chroma.entry.u.at.y mv) (picture.block 4 set (picture.image (plane_in chroma.entry.v)) chroma.entry.v.at.x chroma.entry.v.at.y mv) }
    ensures all_after { all.new ≡ block_takes 4 set (plane_in chroma.entry.u) chroma.entry.u.at.x chroma.entry.u.at.y mv + block_takes 4 set (plane_in chroma.entry.v) chroma.entry.v.at.x chroma.entry.v.at.y mv }
{
    let way = way_of(mv, set);
    let mut tally: u32 = 0;
    if let Some(found) = find(chroma.u, mv, 9) {
        let u_from = chroma.u.window(found);
        let v_from = chroma.v.window(found);
        let pair = filter_pair(
            chroma.u.plane,
            u_from,
            chroma.v.plane,
            v_from,
            way,
            &mut tally,
        );
        *all = took(found.fetched + found.fetched, tally);
        return pair;
    }
    let mut u_fetched: u64 = 0;
    let mut v_fetched: u64 = 0;
    let u_halo = halo_of::<4, 81>(chroma.u, mv, &mut u_fetched);
    let v_halo = halo_of::<4, 81>(chroma.v, mv, &mut v_fetched);
    let whole = Window { at: 0, pitch: 9 };
    let pair = filter_pair(&u_halo, whole, &v_halo, whole, way, &mut tally);
    *all = took(u_fetched + v_fetched, tally);
    pair
}
