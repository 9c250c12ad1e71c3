// A whole frame predicted at once, into planes that are lent for it.
#![tactic(auto)]

mod macroblocks;
mod numbered;
mod order;
mod orders;
mod pictures;
mod predict;

pub use predict::predict_frame;
use rfc6386::{FilterSet, Sizes};

// From one row to the next in the planes that are written.
#[derive(Clone, Copy)]
pub struct Strides {
    pub y: usize,
    pub u: usize,
    pub v: usize,
}

// How a frame is predicted: the sizes of the references, which are its own, the strides of what is written, table and flag.
#[derive(Clone, Copy)]
pub struct Frame {
    pub sizes: Sizes,
    pub strides: Strides,
    pub set: FilterSet,
    pub full_pixel: bool,
}
