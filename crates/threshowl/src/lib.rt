// The library that a C program links: prediction of macroblocks and frames, decoded macroblocks, the mending of recordings, and YUV4MPEG2 files, over
// numbers and bytes. C hands over each number by itself, codes and flags as numbers, and lends pointers for what is told: so the functions that it calls
// take them so, each for itself, and what they are made into has the types of the crates below.
#![tactic(auto)]

pub mod boundary;
pub mod by_version;
pub mod finished;
pub mod frames;
pub mod from_levels;
pub mod pictures;
pub mod recordings;
pub mod report;
