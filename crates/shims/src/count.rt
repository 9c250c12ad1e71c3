// How many recorded answers a function was held to, and how many of them differ.
use std::fmt;

#[derive(Clone, Copy)]
pub struct Count {
    pub replayed: u64,
    pub differ: u64,
}

impl Count {
    pub fn nothing() -> Count {
        Count {
            replayed: 0,
            differ: 0,
        }
    }

    // With one answer more.
    pub fn with(self, same: bool) -> Count {
        Count {
            replayed: self.replayed.wrapping_add(1),
            differ: self.differ.wrapping_add(u64::from(!same)),
        }
    }
}

impl fmt::Display for Count {
    fn fmt<W: fmt::Write>(&self, f: &mut fmt::Formatter<W>) -> fmt::Result {
        write!(f, "{} replayed, {} differ", self.replayed, self.differ)
    }
}
