// The decoded macroblock: a prediction of `prediction` with the residue added, on plain slices. The coefficients, or the quantised levels that stand
// for them, are lent as one list, 400 of them or 384: as `threshowl` takes them from C. The planes, their sizes and the place are parameters of
// their own, by a rule of the project: the core takes plain slices, and `reconstruction_entries` the record that holds them.
#![tactic(auto)]

mod finish;
mod from_levels;
mod reconstruct;

// a prediction finished
pub use finish::{finish_split, finish_whole};

// the three calls
pub use reconstruct::{
    reconstruct_inter_mb, reconstruct_inter_mb_whole_pixel, reconstruct_split_mv_mb,
};

// and from levels
pub use from_levels::{
    reconstruct_inter_mb_from_levels, reconstruct_inter_mb_whole_pixel_from_levels,
    reconstruct_split_mv_mb_from_levels,
};
