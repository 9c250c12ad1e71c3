// A square of SIDE samples a side in a lent plane, at whose every sample a block may start.
ghost use Rattle.std.specs.Prelude.{◌≡◌, ◌+◌, ◌<◌, ◌≤◌};
ghost use Rattle.blocks.specs.Lents.{plane_in};
ghost use Rattle.prediction.specs.Tiles.{Starts};

use crate::split::from;
use blocks::lent::Lent;

#[derive(Clone, Copy)]
pub struct Standing<'a, const SIDE: usize> {
    pub lent: Lent<'a>,
    ghost starts: { Starts (plane_in lent) lent.at.x lent.at.y SIDE },
}

impl<'a, const SIDE: usize> Standing<'a, SIDE> {
    // The block x columns and y rows further on.
    pub fn block(self, x: usize, y: usize) -> Lent<'a>
        requires { (x < SIDE) × (y < SIDE) × (SIDE ≤ 16) }
        ensures plane { result.plane.now ≡ self.entry.lent.plane.now }
        ensures place { result.at ≡ record { stride = self.entry.lent.at.stride; w = self.entry.lent.at.w; h = self.entry.lent.at.h; x = self.entry.lent.at.x + x; y = self.entry.lent.at.y + y } }
    {
        Lent {
            plane: self.lent.plane,
            at: from(self.lent.at, x, y),
        }
    }
}
