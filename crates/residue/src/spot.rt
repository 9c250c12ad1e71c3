// The place of a 4x4 block: at row y, column x of rows of w samples that start at number i.
#[derive(Clone, Copy)]
pub struct Spot {
    pub i: usize,
    pub w: usize,
    pub y: usize,
    pub x: usize,
}
