// Squares of a plane: the fetches, and blocks of 4, 8 and 16 samples a side that are fetched and filtered.
#![tactic(auto)]

pub mod block;
pub mod chroma;
pub mod chroma_lent;
mod fetch;
pub mod lent;
mod near;
pub mod place;
pub mod sided;
pub mod square;
pub mod taken;

// as in the Rust
pub use block::{filter_block_4x4, filter_block_4x4_into};
pub use fetch::{
    fetch_block_halo, fetch_block_whole_pixel, fetch_chroma_mb_halo, fetch_chroma_mb_whole_pixel,
    fetch_luma_mb_halo, fetch_luma_mb_whole_pixel,
};
