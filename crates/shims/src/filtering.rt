// One filter step, and the filters of a halo.
use crate::bytes::give;
use crate::codes::coded;
use filters::{interp, sixtap_2d, sixtap_mb_chroma, sixtap_mb_luma};

pub fn shim_interp(filter: u8, k: usize, support: &[u8], out: &mut [u8]) -> u32 {
    let Ok(six) = <&[u8; 6]>::try_from(support) else {
        return 255;
    };
    let made = coded(filter).and_then(|set| interp(set, k, six));
    give(made.map(|step| [step.sample]), out)
}

// This and the next two are one text but for a size and a call: one function that takes the call as a parameter has to say what that is asked,
// and was tried and is no shorter.
fn sixtap_4(halo: &[u8], mx: usize, my: usize, filter: u8, out: &mut [u8]) -> u32 {
    let Ok(halo) = <&[u8; 81]>::try_from(halo) else {
        return 255;
    };
    let made = coded(filter).and_then(|set| sixtap_2d(halo, mx, my, set));
    give(made.map(|block| block.samples), out)
}

fn sixtap_8(halo: &[u8], mx: usize, my: usize, filter: u8, out: &mut [u8]) -> u32 {
    let Ok(halo) = <&[u8; 169]>::try_from(halo) else {
        return 255;
    };
    let made = coded(filter).and_then(|set| sixtap_mb_chroma(halo, mx, my, set));
    give(made.map(|block| block.samples), out)
}

fn sixtap_16(halo: &[u8], mx: usize, my: usize, filter: u8, out: &mut [u8]) -> u32 {
    let Ok(halo) = <&[u8; 441]>::try_from(halo) else {
        return 255;
    };
    let made = coded(filter).and_then(|set| sixtap_mb_luma(halo, mx, my, set));
    give(made.map(|block| block.samples), out)
}

// The filter of a block of that width.
pub fn shim_sixtap(
    width: u8,
    halo: &[u8],
    mx: usize,
    my: usize,
    filter: u8,
    out: &mut [u8],
) -> u32 {
    match width {
        4 => sixtap_4(halo, mx, my, filter, out),
        8 => sixtap_8(halo, mx, my, filter, out),
        16 => sixtap_16(halo, mx, my, filter, out),
        _ => 255,
    }
}
