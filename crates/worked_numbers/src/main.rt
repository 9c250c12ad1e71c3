// Runs the numbers that the specification works by hand, save those that are proved, and others of their kind: each call at the limits of its
// tests. Every line says what was given, and after the colon what came back. A pair such as 3/0 is the call's number and how many of its
// samples, or of the bytes of its destination, are not 0: every plane here shows the one value 200, so that an accepted call has all of them
// and a refused one has none. What is expected, stdout, was worked out from the paper.
// What is given is written out number by number, as the calls take it and the lines say it.
#![tactic(auto)]

mod by_version;
mod fractions;
mod halos;
mod into;
mod macroblocks;
mod planes;
mod say;
mod vectors;

use std::io;

fn main(rt: HostRuntime) -> io::Result<()> {
    macroblocks::all(&rt)?;
    by_version::all(&rt)?;
    halos::all(&rt)?;
    planes::all(&rt)?;
    into::all(&rt)?;
    fractions::all(&rt)?;
    vectors::all(&rt)
}
