// Whether the halo of a block lies inside the picture, where it can be filtered as it stands.
ghost use Rattle.std.specs.Prelude.{◌≡◌, ◌≤◌, length, IfSome};
ghost use Rattle.rfc6386.specs.Fetched.{square_of};
ghost use Rattle.blocks.specs.Places.{HaloAt, halo_start};

use crate::lent::Lent;
use crate::square::{inside, origin};
use rfc6386::Mv;

// From which column and row on it does, and how many samples are then fetched.
#[derive(Clone, Copy)]
pub struct Found {
    pub x: usize,
    pub y: usize,
    pub fetched: u64,
}

// The halo of n samples a side, two before the vector's whole part.
pub fn find(lent: Lent<'_>, mv: Mv, n: usize) -> Option<Found>
    requires n_bound { n ≤ 21 }
    ensures halo_at { IfSome result (λ found. HaloAt lent.entry.at mv n found.x found.y) }
    ensures fetched_value { IfSome result (λ found. found.fetched ≡ length (square_of n lent.entry.at.w lent.entry.at.h (halo_start lent.entry.at.x mv.col) (halo_start lent.entry.at.y mv.row))) }
{
    let at = lent.at;
    let x0 = origin(at.x, mv.col) - 2;
    let y0 = origin(at.y, mv.row) - 2;
    if inside(x0, n, at.w) && inside(y0, n, at.h) {
        return Some(Found {
            x: x0 as usize,
            y: y0 as usize,
            fetched: (n * n) as u64,
        });
    }
    None
}
