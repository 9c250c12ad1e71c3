// Vectors, given back as bytes.
use crate::bytes::{bytes_of, give, mvs_of};
use motion_vectors::{apply_full_pixel, chroma_mv, split_chroma_mvs, stored_luma_mv};
use rfc6386::Mv;

// 0 asks for the stored vector, 1 for that of chroma, 2 for one lowered to whole pixels.
pub fn shim_vector(which: u8, row: i16, col: i16, out: &mut [u8]) -> u32 {
    let mv = Mv { row, col };
    let asked = match which {
        0 => stored_luma_mv(mv),
        1 => chroma_mv(mv),
        2 => apply_full_pixel(mv),
        _ => return 255,
    };
    give(Ok(bytes_of(asked)), out)
}

pub fn shim_split_chroma(vectors: &[u8], out: &mut [u8]) -> u32 {
    if vectors.len() != 64 {
        return 255;
    }
    let mut all = [0u8; 16];
    all.copy_from_slice(
        split_chroma_mvs(mvs_of(vectors))
            .map(bytes_of)
            .as_flattened(),
    );
    give(Ok(all), out)
}
