// The header line of a YUV4MPEG2 file: the width and height that it tells, or that it breaks the rules.
#![tactic(auto)]

pub mod header_line;

// What a header tells, and how many bytes it is.
#[derive(Clone, Copy)]
pub struct Header {
    pub width: u64,
    pub height: u64,
    pub taken: u64,
}
