// One filter step, and the filters over halos, as in the Rust. No function asks anything of its caller.
#![tactic(auto)]

mod halos;
pub mod sided;

pub use halos::{clamp255, interp, sixtap_2d, sixtap_mb_chroma, sixtap_mb_luma};
