// Replays answers of the Rust that was ported: finished macroblocks, of coefficients and of quantised levels that it dequantised first. They stand in
// data/finished.bin, whose form tests/oracle/finished_tape.rs describes. It was made as that of rust_answers is, by the same command.
#![tactic(auto)]

mod calls;
mod records;

use std::fs;
use std::io::{self, Read};

// Room for more than the file has, so that bytes after its end are noticed.
const ROOM: u64 = 262144;

fn main(rt: HostRuntime) -> io::Result<()> {
    let mut file = Vec::new(rt.alloc());
    fs::open(&rt, "finished.bin")?
        .take(ROOM)
        .read_to_end(&mut file)?;
    records::all(&rt, file.as_slice())
}
