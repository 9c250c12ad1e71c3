// The pictures that a frame is predicted from, and all that it is made of.
ghost use Rattle.std.specs.Prelude.{◌≡◌};
ghost use Rattle.numbers.specs.Outcome.{told};
ghost use Rattle.rfc6386.specs.Macroblock as macroblock;
ghost use Rattle.frame.specs.Codes.{reference_of};
ghost use Rattle.frame.specs.Inner.{planes_in, planes_named};

use crate::Frame;
use numbers::Refusal;
use rfc6386::Sizes;

// The three lent planes of one.
#[derive(Clone, Copy)]
pub struct Picture<'a> {
    pub y: &'a [u8],
    pub u: &'a [u8],
    pub v: &'a [u8],
}

// All three, which share sizes and strides.
#[derive(Clone, Copy)]
pub struct Pictures<'a> {
    pub last: Picture<'a>,
    pub golden: Picture<'a>,
    pub altref: Picture<'a>,
}

// What a frame is made of: the pictures, how it is predicted from them, and the orders.
#[derive(Clone, Copy)]
pub struct Task<'a> {
    pub pictures: Pictures<'a>,
    pub frame: Frame,
    pub orders: &'a [u8],
}

// Which of the pictures an order names.
#[derive(Clone, Copy, Debug, PartialEq, Eq)]
pub enum Named {
    Last,
    Golden,
    Altref,
}

impl TryFrom<u8> for Named {
    type Error = Refusal;

    ghost try_from_gives = { λ code named. named ≡ reference_of code };

    fn try_from(code: u8) -> Result<Named, Refusal> {
        match code {
            0 => Ok(Named::Last),
            1 => Ok(Named::Golden),
            2 => Ok(Named::Altref),
            _ => Err(Refusal::Orders),
        }
    }
}

impl<'a> Picture<'a> {
    // 1, 2 and 3, of a picture of these sizes.
    pub fn refusal(self, sizes: Sizes) -> Result<(), Refusal>
        ensures { told result ≡ macroblock.refusal (macroblock.lent self.entry.y.now self.entry.u.now self.entry.v.now sizes) 0 0 }
    {
        refusals::refusal(self.y, self.u, self.v, sizes, 0, 0)
    }
}

impl<'a> Pictures<'a> {
    // The one that is named.
    pub fn named(self, named: Named) -> Picture<'a>
        ensures { planes_in result ≡ planes_named named self.entry }
    {
        match named {
            Named::Last => self.last,
            Named::Golden => self.golden,
            Named::Altref => self.altref,
        }
    }
}
