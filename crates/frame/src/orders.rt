// What orders say, and number 9.
ghost use Rattle.std.specs.Prelude.{◌≡◌, ◌≤◌};
ghost use Rattle.numbers.specs.Outcome.{told};
ghost use Rattle.rfc6386.specs.Vector.{sent};
ghost use Rattle.frame.specs.Frame.{vectors_at, orders_refusal};
ghost use Rattle.frame.specs.Codes.{kind_of, codes_at};

use crate::order::Order;
use crate::pictures::Named;
use numbers::Refusal;
use rfc6386::Mv;
use vector_bytes::{mvs_of_bytes, read_i16};

// A macroblock of one vector, or of sixteen.
#[derive(Clone, Copy, Debug, PartialEq, Eq)]
pub enum Kind {
    Whole,
    Split,
}

impl TryFrom<u8> for Kind {
    type Error = Refusal;

    ghost try_from_gives = { λ code kind. kind ≡ kind_of code };

    fn try_from(code: u8) -> Result<Kind, Refusal> {
        match code {
            0 => Ok(Kind::Whole),
            1 => Ok(Kind::Split),
            _ => Err(Refusal::Orders),
        }
    }
}

// The two codes of an order.
#[derive(Clone, Copy, Debug, PartialEq, Eq)]
pub struct Codes {
    pub named: Named,
    pub kind: Kind,
}

impl<'a> Order<'a> {
    pub fn codes(self) -> Result<Codes, Refusal>
        ensures { result ≡ codes_at self.entry.orders.now self.entry.k }
    {
        let at = 66 * self.k;
        let named = Named::try_from(self.orders[at])?;
        let kind = Kind::try_from(self.orders[at + 1])?;
        Ok(Codes { named, kind })
    }

    // A whole macroblock has no other vector.
    pub fn first_vector(self) -> Mv
        ensures { result ≡ sent (vectors_at self.entry.orders.now self.entry.k) 0 }
    {
        let at = 66 * self.k;
        Mv {
            row: read_i16(self.orders[at + 2], self.orders[at + 3]),
            col: read_i16(self.orders[at + 4], self.orders[at + 5]),
        }
    }

    pub fn vectors(self) -> [Mv; 16]
        ensures { result ≡ vectors_at self.entry.orders.now self.entry.k }
    {
        let at = 66 * self.k;
        mvs_of_bytes(&self.orders[at + 2..at + 66])
    }
}

// Number 9, for n macroblocks.
pub fn orders_refusal(orders: &[u8], n: usize) -> Result<(), Refusal>
    requires { n ≤ 1048576 }
    ensures { told result ≡ orders_refusal orders.now n }
{
    if orders.len() != 66 * n {
        return Err(Refusal::Orders);
    }
    for k in 0..n {
        Order { orders, k }.codes()?;
    }
    Ok(())
}
