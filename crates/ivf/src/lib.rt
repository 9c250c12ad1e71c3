// IVF recordings: a cut file is mended. Its complete frames are kept, what follows them is dropped, and the count in its header is set.
#![tactic(auto)]

mod bytes;
mod frames;
pub mod mend;
mod output;

// What mending a file reports.
#[derive(Clone, Copy)]
pub struct Mended {
    pub old_count: u64,
    pub new_count: u64,
    pub dropped: u64,
}
