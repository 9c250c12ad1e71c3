// A block of SIDE by SIDE samples out of a window of SIDE + 5, put in its place, where SIDE is 4, 8 or 16. What is given back is its tally.
// That it is one of these is a clause, since no type says more of a const parameter; and a list stands beside its window, since a `View` of SIDE + 5
// would be a computed const argument, of which Rattle has none.
ghost use Rattle.std.specs.Prelude.{◌≡◌, ◌+◌, ◌<◌, length};
ghost use Rattle.rfc6386.specs.Picture.{halo_block};
ghost use Rattle.steps.specs.Rows.{Room, Held};
ghost use Rattle.steps.specs.Side.{Side};
ghost use Rattle.steps.specs.Tally.{tally_of};
ghost use Rattle.steps.specs.Window.{put, put_at, window_list, window_block, window_clips};

use fours::tile::filter_tile;
use rfc6386::FilterSet;
use sixteens::strips::filter_strips;
use sixteens::wide::filter_wide;
use steps::rect::{Spot, Window, copy_rect};
use steps::way::Way;

// Of 8 samples a side, as two strips: the upper four rows beside the lower four.
pub fn filter_eight(src: &[u8], window: Window, way: Way, out: &mut [u8], spot: Spot) -> u32
    requires held { Held (length src.now) window.at window.pitch 13 13 }
    requires room { Room (length out.old) spot.stride spot.x spot.y 8 8 }
    ensures out_after { out.new ≡ put out.old spot 8 (window_block 8 src.now window way) }
    ensures value { result ≡ tally_of (window_clips 8 src.now window way) }
{
    let lower = Window {
        at: window.at + 4 * window.pitch,
        pitch: window.pitch,
    };
    let mut tally: u32 = 0;
    let strips = filter_strips(src, window, src, lower, 4, way, &mut tally);
    let below = Spot {
        stride: spot.stride,
        x: spot.x,
        y: spot.y + 4,
    };
    copy_rect(out, spot, 8, 4, &strips, Window { at: 0, pitch: 16 });
    copy_rect(out, below, 8, 4, &strips, Window { at: 8, pitch: 16 });
    tally
}

// The middle of the window, which is the block where both fractions are 0.
fn middle_into<const SIDE: usize>(src: &[u8], window: Window, out: &mut [u8], spot: Spot)
    requires side { Side SIDE }
    requires held { Held (length src.now) window.at window.pitch (SIDE + 5) (SIDE + 5) }
    requires room { Room (length out.old) spot.stride spot.x spot.y SIDE SIDE }
    ensures { (set : FilterSet) → out.new ≡ put_at out.old spot.stride spot.x spot.y SIDE (halo_block SIDE set (window_list (SIDE + 5) src.now window.at window.pitch) 0 0) }
{
    let middle = Window {
        at: window.at + 2 * window.pitch + 2,
        pitch: window.pitch,
    };
    copy_rect(out, spot, SIDE, SIDE, src, middle);
}

// The block, by the filter of its side.
// No trait over the side: its law would be this contract, and each of the three would prove it once more.
pub fn filter_square<const SIDE: usize>(
    src: &[u8],
    window: Window,
    way: Way,
    out: &mut [u8],
    spot: Spot,
) -> u32
    requires side { Side SIDE }
    requires held { Held (length src.now) window.at window.pitch (SIDE + 5) (SIDE + 5) }
    requires room { Room (length out.old) spot.stride spot.x spot.y SIDE SIDE }
    ensures out_after { out.new ≡ put out.old spot SIDE (window_block SIDE src.now window way) }
    ensures value { result ≡ tally_of (window_clips SIDE src.now window way) }
{
    if way.mx == 0 && way.my == 0 {
        middle_into::<SIDE>(src, window, out, spot);
        return 0;
    }
    match SIDE {
        4 => filter_tile(src, window, way, out, spot),
        8 => filter_eight(src, window, way, out, spot),
        _ => {
            let mut tally: u32 = 0;
            let block = filter_wide(src, window, way, &mut tally);
            copy_rect(out, spot, 16, 16, &block, Window { at: 0, pitch: 16 });
            tally
        }
    }
}

// The same of a side that is known only when running.
pub fn filter_sided(
    src: &[u8],
    window: Window,
    way: Way,
    n: usize,
    out: &mut [u8],
    spot: Spot,
) -> u32
    requires side { Side n }
    requires held { Held (length src.now) window.at window.pitch (n + 5) (n + 5) }
    requires room { Room (length out.old) spot.stride spot.x spot.y n n }
    ensures out_after { out.new ≡ put out.old spot n (window_block n src.now window way) }
    ensures value { result ≡ tally_of (window_clips n src.now window way) }
{
    match n {
        4 => filter_square::<4>(src, window, way, out, spot),
        8 => filter_square::<8>(src, window, way, out, spot),
        _ => filter_square::<16>(src, window, way, out, spot),
    }
}
