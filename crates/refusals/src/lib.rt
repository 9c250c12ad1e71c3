// Every test by which prediction refuses: of one plane, of a macroblock, and of what comes beside the planes.
#![tactic(auto)]

mod codes;
mod macroblocks;
mod planes;

pub use codes::{code_refusal, count_refusal, room_refusal};
pub use macroblocks::refusal;
pub use planes::{no_room, plane_refusal};
