// How a block is filtered: the table, and the fractions of the vector in eighths, of its column and of its row.
// That a fraction is not 0 is asked only where both passes are made: with either pass alone, the other fraction is 0.
ghost use Rattle.std.specs.Prelude.{◌<◌};

use rfc6386::FilterSet;

#[derive(Clone, Copy)]
pub struct Way {
    pub set: FilterSet,
    pub mx: usize,
    pub my: usize,
    ghost across: { mx < 8 },
    ghost down: { my < 8 },
}
