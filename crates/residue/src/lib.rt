// The residue of a macroblock (RFC 6386, section 14): the two inverse transforms, their short paths, the sum with the prediction, and which
// coefficients are refused. What it offers is for `reconstruction` and the boundary to C, which ask first.
// Ranges are clauses (`Bounded`, `Open`): each function asks for its own, or of its own part of a list, which no one type would say.
#![tactic(auto)]

mod adding;
mod blocks;
mod domain;
mod planes;
mod short;
mod spot;
mod transform;

// a whole macroblock's coefficients once Y2 has given its part, and samples of a plane or of a macroblock finished
pub use blocks::seeded;
pub use planes::{finish_plane, finish_samples};

// number 11
pub use domain::{split_refusal, whole_refusal};
