// A macroblock's squares in the two chroma planes.
ghost use Rattle.std.specs.Prelude.{◌≡◌};
ghost use Rattle.blocks.specs.Places.{Alike};

use crate::standing::Standing;
use blocks::chroma_lent::ChromaLent;

#[derive(Clone, Copy)]
pub struct StandingChroma<'a> {
    pub u: Standing<'a, 8>,
    pub v: Standing<'a, 8>,
    ghost alike: { Alike u.lent.at v.lent.at },
}

impl<'a> StandingChroma<'a> {
    // The blocks that start where the squares do.
    pub fn first(self) -> ChromaLent<'a>
        ensures u { result.u ≡ self.entry.u.lent }
        ensures v { result.v ≡ self.entry.v.lent }
    {
        ChromaLent {
            u: self.u.lent,
            v: self.v.lent,
        }
    }
}
