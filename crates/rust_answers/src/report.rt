// The lines that are written.
use crate::ending::is_whole;
use crate::functions::FUNCTIONS;
use crate::replay::through;
use std::io;

// Replays the file.
pub fn all(rt: &HostRuntime, file: &[u8]) -> io::Result<()> {
    let s = through(file);
    for (function, count) in FUNCTIONS.iter().zip(&s.tally.counts) {
        println!(rt; "{function}: {count}")?;
    }
    println!(rt; "in all: {}", s.tally.all)?;
    if is_whole(file, s.at, s.records) {
        println!(rt; "the file is whole")
    } else {
        println!(rt; "the file is damaged")
    }
}
