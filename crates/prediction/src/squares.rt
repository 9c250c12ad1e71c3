// A macroblock's squares in the three planes of a reference picture that is lent.
ghost use Rattle.std.specs.Prelude.{◌≡◌, ◌*◌, ◌≤◌};
ghost use Rattle.rfc6386.specs.Refusal.{Sized};
ghost use Rattle.rfc6386.specs.Block.{plane_of};
ghost use Rattle.rfc6386.specs.Macroblock as macroblock;
ghost use Rattle.rfc6386.specs.Macroblock.{lent};
ghost use Rattle.prediction.specs.Tiles.{Starts};
ghost use Rattle.prediction.specs.Stands.{Stands};

use crate::standing::Standing;
use crate::standing_chroma::StandingChroma;
use blocks::lent::Lent;
use blocks::place::place_of;
use rfc6386::Sizes;

// The squares of a macroblock.
#[derive(Clone, Copy)]
pub struct Squares<'a> {
    pub luma: Standing<'a, 16>,
    pub chroma: StandingChroma<'a>,
}

// The square of one plane.
fn square_of<'a, const SIDE: usize>(
    plane: &'a [u8],
    stride: usize,
    sizes: Sizes,
    mb_col: usize,
    mb_row: usize,
) -> Standing<'a, SIDE>
    requires starts { Starts (plane_of plane.now stride (sizes.mb_cols * SIDE) (sizes.mb_rows * SIDE)) (mb_col * SIDE) (mb_row * SIDE) SIDE }
    requires sized { Sized sizes.mb_cols sizes.mb_rows }
    requires small { (mb_col ≤ 1024) × (mb_row ≤ 1024) × (1 ≤ SIDE) × (SIDE ≤ 16) }
    ensures plane { result.lent.plane.now ≡ plane.now }
    ensures place { result.lent.at ≡ record { stride = stride; w = sizes.mb_cols * SIDE; h = sizes.mb_rows * SIDE; x = mb_col * SIDE; y = mb_row * SIDE } }
{
    let at = place_of(stride, sizes, mb_col, mb_row, SIDE);
    Standing {
        lent: Lent { plane, at },
    }
}

// Those of a macroblock that is not refused.
// The planes come one by one, as the calls have them.
pub fn squares_of<'a>(
    y: &'a [u8],
    u: &'a [u8],
    v: &'a [u8],
    sizes: Sizes,
    mb_col: usize,
    mb_row: usize,
) -> Squares<'a>
    requires { macroblock.refusal (lent y.now u.now v.now sizes) mb_col mb_row ≡ 0 }
    ensures luma { let ref = lent y.now u.now v.now sizes in Stands ref ref.y 16 mb_col mb_row result.luma.lent }
    ensures chroma_u { let ref = lent y.now u.now v.now sizes in Stands ref ref.u 8 mb_col mb_row result.chroma.u.lent }
    ensures chroma_v { let ref = lent y.now u.now v.now sizes in Stands ref ref.v 8 mb_col mb_row result.chroma.v.lent }
{
    let luma = square_of::<16>(y, sizes.y_stride, sizes, mb_col, mb_row);
    let chroma_u = square_of::<8>(u, sizes.u_stride, sizes, mb_col, mb_row);
    let chroma_v = square_of::<8>(v, sizes.v_stride, sizes, mb_col, mb_row);
    Squares {
        luma,
        chroma: StandingChroma {
            u: chroma_u,
            v: chroma_v,
        },
    }
}
