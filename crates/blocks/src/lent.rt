// What a prediction reads of one plane: the plane, and where a block stands in it.
ghost use Rattle.std.specs.Prelude.{◌≡◌, ℕ, ◌+◌, ◌*◌, ◌<◌, ◌≤◌, get_or, IfOk};
ghost use Rattle.numbers.specs.Outcome.{outcome};
ghost use Rattle.rfc6386.specs.Refusal.{plane_refusal};
ghost use Rattle.rfc6386.specs.Block.{plane_of};
ghost use Rattle.blocks.specs.Places.{Accepted};

use crate::near::Found;
use crate::place::Place;
use numbers::Refusal;
use refusals::plane_refusal;
use steps::rect::Window;

// The tests of a call accept both. That the plane's samples are bytes stands here since a proof that is given a struct has no such fact of a
// slice in it.
#[derive(Clone, Copy)]
pub struct Lent<'a> {
    pub plane: &'a [u8],
    pub at: Place,
    ghost accepted: { Accepted plane.now at },
    ghost bytes: { (i : ℕ) → get_or plane.now i 0 ≤ 255 },
}

impl<'a> Lent<'a> {
    // What a call on one plane is given, once tested.
    // The parameters are the Rust's, as those of the calls are.
    pub fn tested(
        plane: &'a [u8],
        stride: usize,
        w: usize,
        h: usize,
        x: usize,
        y: usize,
    ) -> Result<Lent<'a>, Refusal>
        ensures refusal { outcome (λ lent. 0) (λ n. n) result ≡ plane_refusal (plane_of plane.now stride w h) x y }
        ensures lent { IfOk result (λ lent. (lent.plane.now ≡ plane.now) × (lent.at ≡ record { stride = stride; w = w; h = h; x = x; y = y })) }
    {
        plane_refusal(plane, stride, w, h, x, y)?;
        Ok(Lent {
            plane,
            at: Place { stride, w, h, x, y },
        })
    }

    // Where a halo that was found lies in the plane.
    pub fn window(self, found: Found) -> Window
        requires inside { (found.x ≤ self.at.w) × (found.y < self.at.h) }
        ensures { result ≡ record { at = found.y * self.entry.at.stride + found.x; pitch = self.entry.at.stride } }
    {
        Window {
            at: found.y * self.at.stride + found.x,
            pitch: self.at.stride,
        }
    }
}
