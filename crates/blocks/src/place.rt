// Where a macroblock stands in a plane that has `side` samples to a macroblock.
ghost use Rattle.std.specs.Prelude.{◌≡◌, ◌*◌, ◌≤◌};
ghost use Rattle.rfc6386.specs.Refusal.{Sized};

use rfc6386::Sizes;

// A plane's stride and size, and the first sample of a block in it.
#[derive(Clone, Copy)]
pub struct Place {
    pub stride: usize,
    pub w: usize,
    pub h: usize,
    pub x: usize,
    pub y: usize,
}

pub fn place_of(stride: usize, sizes: Sizes, mb_col: usize, mb_row: usize, side: usize) -> Place
    requires sized { Sized sizes.mb_cols sizes.mb_rows }
    requires mb_col_bound { (mb_col ≤ 1024) × (mb_row ≤ 1024) × (side ≤ 16) }
    ensures { result ≡ record { stride = stride; w = sizes.mb_cols * side; h = sizes.mb_rows * side; x = mb_col * side; y = mb_row * side } }
{
    Place {
        stride,
        w: sizes.mb_cols * side,
        h: sizes.mb_rows * side,
        x: mb_col * side,
        y: mb_row * side,
    }
}
