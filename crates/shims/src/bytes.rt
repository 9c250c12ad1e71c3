// Bytes read and written. A byte past the end reads as 0, so that nothing is asked of a length.
use numbers::Refusal;
use rfc6386::{Mv, ReconstructedMb};

pub fn byte_at(s: &[u8], i: usize) -> u8 {
    s.get(i).copied().unwrap_or(0)
}

// The `len` bytes from `from` on; none where there are fewer.
// No range of both: their sum may not fit.
pub fn part(s: &[u8], from: usize, len: usize) -> &[u8] {
    s.get(from..)
        .and_then(|rest| rest.get(..len))
        .unwrap_or(b"")
}

// The first N bytes.
pub fn first<const N: usize>(s: &[u8]) -> [u8; N] {
    let mut out = [0u8; N];
    fill(&mut out, s);
    out
}

// The low byte stands first.
pub fn word(s: &[u8]) -> u16 {
    u16::from_le_bytes(first(s))
}

// A vector's row stands before its column.
pub fn mv_of(s: &[u8]) -> Mv {
    Mv {
        row: i16::from_le_bytes(first(s)),
        col: i16::from_le_bytes(first(part(s, 2, 2))),
    }
}

pub fn mvs_of(s: &[u8]) -> [Mv; 16] {
    let mut mvs = [Mv { row: 0, col: 0 }; 16];
    for (mv, four) in mvs.iter_mut().zip(s.as_chunks::<4>().0) {
        *mv = mv_of(four);
    }
    mvs
}

// A macroblock's numbers, Y2 first.
pub fn numbers_of(s: &[u8]) -> [i16; 400] {
    let mut numbers = [0i16; 400];
    for (number, two) in numbers.iter_mut().zip(s.as_chunks::<2>().0) {
        *number = i16::from_le_bytes(*two);
    }
    numbers
}

pub fn bytes_of(mv: Mv) -> [u8; 4] {
    let [a, b] = mv.row.to_le_bytes();
    let [c, d] = mv.col.to_le_bytes();
    [a, b, c, d]
}

// As much of src as dst has room for, and zeros after it.
pub fn fill(dst: &mut [u8], src: &[u8]) {
    let n = src.len().min(dst.len());
    let (front, back) = dst.split_at_mut(n);
    front.copy_from_slice(&src[..n]);
    back.fill(0);
}

// Ends a call: what it made goes to `out`, or as many zeros where it refuses, if those are as many as that has bytes.
pub fn give<const N: usize>(made: Result<[u8; N], Refusal>, out: &mut [u8]) -> u32 {
    if out.len() != N {
        return 255;
    }
    match made {
        Ok(samples) => {
            out.copy_from_slice(&samples);
            0
        }
        Err(refusal) => {
            out.fill(0);
            u32::from(refusal)
        }
    }
}

// The samples of a macroblock in the order that C gets them in.
pub fn flat(samples: ReconstructedMb) -> [u8; 384] {
    let mut out = [0u8; 384];
    let (y, chroma) = out.split_at_mut(256);
    let (u, v) = chroma.split_at_mut(64);
    y.copy_from_slice(&samples.y);
    u.copy_from_slice(&samples.u);
    v.copy_from_slice(&samples.v);
    out
}
