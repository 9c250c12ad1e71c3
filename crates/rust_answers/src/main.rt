// Replays answers of the Rust that was ported, and says of each function how many it was held to and how many differ. They stand in
// data/answers.bin, whose form tests/oracle/recorder.rs describes. It was made from the Rust at commit 6707c95fae, scalar, by
// `tests/oracle/record PATH-TO-RUST-SRC crates/rust_answers/data/answers.bin crates/finished_answers/data/finished.bin`, which makes the same
// files again.
#![tactic(auto)]

mod alone;
mod ending;
mod functions;
mod macroblocks;
mod planes;
mod replay;
mod report;
mod tally;

use std::fs;
use std::io::{self, Read};

// Room for more than the file has, so that bytes after its end are noticed.
const ROOM: u64 = 524288;

fn main(rt: HostRuntime) -> io::Result<()> {
    let mut file = Vec::new(rt.alloc());
    fs::open(&rt, "answers.bin")?
        .take(ROOM)
        .read_to_end(&mut file)?;
    report::all(&rt, file.as_slice())
}
