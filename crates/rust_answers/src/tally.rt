// How many answers each function was held to, and all of them.
use crate::functions::Function;
use shims::count::Count;

#[derive(Clone, Copy)]
pub struct Tally {
    // in the functions' order
    pub counts: [Count; 27],
    pub all: Count,
}

impl Tally {
    pub fn nothing() -> Tally {
        Tally {
            counts: [Count::nothing(); 27],
            all: Count::nothing(),
        }
    }

    // With one answer more for that function.
    pub fn with(mut self, function: Function, same: bool) -> Tally {
        if let Some(count) = self.counts.get_mut(function as usize) {
            *count = count.with(same);
        }
        self.all = self.all.with(same);
        self
    }
}
