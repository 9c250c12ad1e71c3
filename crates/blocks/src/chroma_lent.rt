// A reference's U and V, both lent.
ghost use Rattle.blocks.specs.Places.{Alike};

use crate::lent::Lent;

#[derive(Clone, Copy)]
pub struct ChromaLent<'a> {
    pub u: Lent<'a>,
    pub v: Lent<'a>,
    ghost alike: { Alike u.at v.at },
}
