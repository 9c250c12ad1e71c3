// The quarter of each luma block, and of numbers far above 15.
use motion_vectors::chroma_idx_for_luma_subblock;
use std::io;

fn quarter(rt: &HostRuntime, b: usize) -> io::Result<()> {
    println!(rt; "quarter of block {b}: {}", chroma_idx_for_luma_subblock(b))
}

pub fn all(rt: &HostRuntime) -> io::Result<()> {
    for b in 0..16 {
        quarter(rt, b)?;
    }
    quarter(rt, 18)?;
    quarter(rt, 18446744073709551600)?;
    quarter(rt, 18446744073709551615)
}
