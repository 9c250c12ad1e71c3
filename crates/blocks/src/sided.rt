// Blocks of 4, 8 or 16 samples a side, fetched, filtered and put into rectangles.
ghost use Rattle.std.specs.Prelude.{◌≡◌, ◌+◌, ◌*◌, length};
ghost use Rattle.rfc6386.specs.Picture as picture;
ghost use Rattle.steps.specs.Rows.{Room};
ghost use Rattle.steps.specs.Side.{Side};
ghost use Rattle.steps.specs.Window.{put};
ghost use Rattle.blocks.specs.Lents.{plane_in};
ghost use Rattle.blocks.specs.Taken.{block_takes};

use crate::block::way_of;
use crate::lent::Lent;
use crate::near::find;
use crate::square::{halo_of, pixels_into};
use crate::taken::took;
use filters::sided::filter_square;
use motion_vectors::whole_pixel_fraction_is_zero;
use rfc6386::{FilterSet, Mv};
use steps::rect::{Spot, Window};

// The block of SIDE samples a side: whole pixels where the vector has no fraction, else filtered, out of the plane where the halo lies inside
// it, else out of a clamped copy. Gives what it took.
pub fn block_into<const SIDE: usize, const HALO: usize>(
    lent: Lent<'_>,
    mv: Mv,
    set: FilterSet,
    out: &mut [u8],
    spot: Spot,
) -> u64
    requires side { Side SIDE }
    requires halo_len { HALO ≡ (SIDE + 5) * (SIDE + 5) }
    requires room { Room (length out.old) spot.stride spot.x spot.y SIDE SIDE }
    ensures out_after { out.new ≡ put out.old spot SIDE (picture.block SIDE set (picture.image (plane_in lent.entry)) lent.entry.at.x lent.entry.at.y mv) }
    ensures value { result ≡ block_takes SIDE set (plane_in lent.entry) lent.entry.at.x lent.entry.at.y mv }
{
    if whole_pixel_fraction_is_zero(mv) {
        return pixels_into::<SIDE>(lent, mv, out, spot);
    }
    let way = way_of(mv, set);
    if let Some(found) = find(lent, mv, SIDE + 5) {
        let tally = filter_square::<SIDE>(lent.plane, lent.window(found), way, out, spot);
        return took(found.fetched, tally);
    }
    let mut fetched: u64 = 0;
    let halo = halo_of::<SIDE, HALO>(lent, mv, &mut fetched);
    let whole = Window {
        at: 0,
        pitch: SIDE + 5,
    };
    let tally = filter_square::<SIDE>(&halo, whole, way, out, spot);
    took(fetched, tally)
}

// The same of a side that is known only when running.
pub fn sided_into(
    lent: Lent<'_>,
    mv: Mv,
    set: FilterSet,
    n: usize,
    out: &mut [u8],
    spot: Spot,
) -> u64
    requires side { Side n }
    requires room { Room (length out.old) spot.stride spot.x spot.y n n }
    ensures out_after { out.new ≡ put out.old spot n (picture.block n set (picture.image (plane_in lent.entry)) lent.entry.at.x lent.entry.at.y mv) }
    ensures value { result ≡ block_takes n set (plane_in lent.entry) lent.entry.at.x lent.entry.at.y mv }
{
    match n {
        4 => block_into::<4, 81>(lent, mv, set, out, spot),
        8 => block_into::<8, 169>(lent, mv, set, out, spot),
        _ => block_into::<16, 441>(lent, mv, set, out, spot),
    }
}
