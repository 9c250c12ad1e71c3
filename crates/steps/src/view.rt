// A square window of a list, which lies in it: SIDE rows of SIDE samples. That these are bytes is said too, since a proof does not see it of a
// slice in a field.
ghost use Rattle.std.specs.Prelude.{ℕ, ◌<◌, length, get_or};
ghost use Rattle.steps.specs.Rows.{Held};

use crate::rect::Window;

#[derive(Clone, Copy)]
pub struct View<'a, const SIDE: usize> {
    pub src: &'a [u8],
    pub window: Window,
    ghost bytes: { (i : ℕ) → get_or src.now i 0 < 256 },
    ghost held: { Held (length src.now) window.at window.pitch SIDE SIDE },
}
