// VP8 inter prediction of a macroblock: whole, at whole pixels, split and merging. No function that is named below asks anything of its
// caller; those that `quarters` takes out of the public modules ask that the macroblock was not refused.
#![tactic(auto)]

pub mod predict;
pub mod split;
mod squares;
pub mod standing;
pub mod standing_chroma;
mod totals;

// port order 6 and 7
pub use predict::{
    predict_inter_mb, predict_inter_mb_lowered, predict_inter_mb_whole_pixel, predict_merging,
    predict_split_mv, predict_split_mv_lowered,
};

// number 8 of two vectors
pub use predict::fraction_left;

// running totals of clipped samples
pub use totals::{Totals, add_clipped};
