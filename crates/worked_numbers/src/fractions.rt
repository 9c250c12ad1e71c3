// The filters at the last fraction and beyond it, on samples of 200: every row of taps sums to 128, so that each filter gives 200 back.
use crate::say::square;
use filters::{interp, sixtap_2d, sixtap_mb_chroma, sixtap_mb_luma};
use rfc6386::FilterSet;
use std::io;

// The pair is the number and the sample.
fn step(rt: &HostRuntime, k: usize) -> io::Result<()> {
    let (number, sample) = match interp(FilterSet::Sixtap, k, &[200u8; 6]) {
        Ok(made) => (0, made.sample),
        Err(refusal) => (u32::from(refusal), 0),
    };
    println!(rt; "interp, fraction {k}: {number}/{sample}")
}

fn squares(rt: &HostRuntime, mx: usize, my: usize) -> io::Result<()> {
    let set = FilterSet::Bilinear;
    let block = square(sixtap_2d(&[200u8; 81], mx, my, set).map(|made| made.samples));
    let chroma = square(sixtap_mb_chroma(&[200u8; 169], mx, my, set).map(|made| made.samples));
    let luma = square(sixtap_mb_luma(&[200u8; 441], mx, my, set).map(|made| made.samples));
    println!(rt; "filters, fractions {mx} {my}: block {block}, chroma {chroma}, luma {luma}")
}

pub fn all(rt: &HostRuntime) -> io::Result<()> {
    step(rt, 7)?;
    step(rt, 8)?;
    step(rt, 18446744073709551615)?;
    squares(rt, 7, 7)?;
    squares(rt, 8, 0)?;
    squares(rt, 0, 8)?;
    squares(rt, 18446744073709551615, 0)
}
