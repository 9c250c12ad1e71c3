// The frames of a YUV4MPEG2 file: read into planes padded to whole macroblocks, and written back.
#![tactic(auto)]

pub mod frames;
mod planes;
mod rows;
