// The planes of a split macroblock: each 4x4 block is predicted on its own and put in its place. What the blocks take is added up, in a number that
// is lent: beside the samples in a record it took 14 % more instructions at whole pixels.
ghost use Rattle.std.specs.Prelude.{◌≡◌, ◌+◌, ◌≤◌};
ghost use Rattle.rfc6386.specs.Vector as vector;
ghost use Rattle.rfc6386.specs.Picture as picture;
ghost use Rattle.rfc6386.specs.Macroblock as macroblock;
ghost use Rattle.blocks.specs.Lents.{plane_in};
ghost use Rattle.prediction.specs.Tiles.{tiles_take};

use crate::standing::Standing;
use crate::standing_chroma::StandingChroma;
use blocks::block::tile_into;
use blocks::chroma::{Chroma, pair_into};
use blocks::chroma_lent::ChromaLent;
use blocks::place::Place;
use motion_vectors::luma_vector;
use rfc6386::{FilterSet, Mv};
use steps::rect::Spot;

// The place x columns and y rows further on.
pub fn from(at: Place, x: usize, y: usize) -> Place
    requires { (at.x ≤ 16384) × (at.y ≤ 16384) × (x ≤ 16) × (y ≤ 16) }
    ensures { result ≡ record { stride = at.stride; w = at.w; h = at.h; x = at.x + x; y = at.y + y } }
{
    Place {
        x: at.x + x,
        y: at.y + y,
        ..at
    }
}

// Sixteen luma blocks, each by its own vector as it was sent.
pub fn split_luma(
    luma: Standing<'_, 16>,
    mvs: [Mv; 16],
    lower: bool,
    set: FilterSet,
    all: &mut u64,
) -> [u8; 256]
    ensures value { result ≡ picture.block_by 16 set (picture.image (plane_in luma.entry.lent)) luma.entry.lent.at.x luma.entry.lent.at.y (λ r c. vector.luma_vector (vector.lowering_of lower) (vector.sent mvs (macroblock.subblock r c))) }
    ensures all_after { all.new ≡ tiles_take 4 set (plane_in luma.entry.lent) luma.entry.lent.at.x luma.entry.lent.at.y (λ b. vector.luma_vector (vector.lowering_of lower) (vector.sent mvs b)) }
{
    let mut out = [0u8; 256];
    let mut total: u64 = 0;
    for b in 0..16 {
        let x = b % 4 * 4;
        let y = b / 4 * 4;
        let mv = luma_vector(mvs[b], lower);
        total += tile_into(
            luma.block(x, y),
            mv,
            set,
            &mut out,
            Spot { stride: 16, x, y },
        );
    }
    *all = total;
    out
}

// Four blocks of each chroma plane, by their quarter's vector. No case of the function above: U and V go side by side through one vector register.
pub fn split_chroma(
    chroma: StandingChroma<'_>,
    mvs: [Mv; 4],
    set: FilterSet,
    all: &mut u64,
) -> Chroma
    ensures value { result ≡ record { u = picture.block_by 8 set (picture.image (plane_in chroma.entry.u.lent)) chroma.entry.u.lent.at.x chroma.entry.u.lent.at.y (λ r c. vector.sent mvs (macroblock.quarter r c)); v = picture.block_by 8 set (picture.image (plane_in chroma.entry.v.lent)) chroma.entry.v.lent.at.x chroma.entry.v.lent.at.y (λ r c. vector.sent mvs (macroblock.quarter r c)) } }
    ensures all_after { all.new ≡ tiles_take 2 set (plane_in chroma.entry.u.lent) chroma.entry.u.lent.at.x chroma.entry.u.lent.at.y (vector.sent mvs) + tiles_take 2 set (plane_in chroma.entry.v.lent) chroma.entry.v.lent.at.x chroma.entry.v.lent.at.y (vector.sent mvs) }
{
    let mut u_out = [0u8; 64];
    let mut v_out = [0u8; 64];
    let mut total: u64 = 0;
    for b in 0..4 {
        let x = b % 2 * 4;
        let y = b / 2 * 4;
        let u = chroma.u.block(x, y);
        let v = chroma.v.block(x, y);
        total += pair_into(
            ChromaLent { u, v },
            mvs[b],
            set,
            &mut u_out,
            &mut v_out,
            Spot { stride: 8, x, y },
        );
    }
    *all = total;
    Chroma { u: u_out, v: v_out }
}
