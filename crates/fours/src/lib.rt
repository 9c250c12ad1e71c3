// Filters over windows of a plane that leave rows of 4 samples: a block of one plane, or one of U and one of V side by side.
// A list is handed over whole with a place in it, as in `steps`. `across` and `down` are two functions: what they gather differs, and their contracts
// say which fraction is 0, as the theorems across_sample and down_sample do.
#![tactic(auto)]

pub mod pair;
pub mod tile;
