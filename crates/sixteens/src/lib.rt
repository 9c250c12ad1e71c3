// Filters over windows of a plane that leave rows of 16 samples: two strips of 8 columns side by side, or a block of 16.
// A list is handed over whole with a place in it, as in `steps`.
#![tactic(auto)]

mod pair;
mod ring;
pub mod strips;
mod two_rows;
pub mod wide;
