// The halo of a macroblock's luma at column 2 and row 2, with the vector zero: 21 samples a side fit exactly, and of 20 the last is repeated.
use crate::say::every;
use blocks::fetch_luma_mb_halo;
use rfc6386::Mv;
use std::{array, io};

// The column, or else the row, of sample i of a plane with so many columns.
// It is reduced so that a byte holds it.
fn place(i: usize, columns: usize, across: bool) -> u8 {
    if columns == 0 {
        return 0;
    }
    if across {
        return (i % columns % 256) as u8;
    }
    (i / columns % 256) as u8
}

// The first row of a halo, or else its first column.
fn edge(halo: [u8; 441], across: bool) -> [u8; 21] {
    let mut out = [0u8; 21];
    if across {
        out.copy_from_slice(&halo[..21]);
        return out;
    }
    for (sample, row) in out.iter_mut().zip(halo.as_chunks::<21>().0) {
        *sample = row[0];
    }
    out
}

// On a plane whose samples are its columns, or else its rows. Each is in order, so that no call is refused.
fn fetched(rt: &HostRuntime, what: &str, side: usize, across: bool) -> io::Result<()> {
    let plane: [u8; 441] = array::from_fn(|i| place(i, side, across));
    let mv = Mv { row: 0, col: 0 };
    let halo = fetch_luma_mb_halo(&plane, side, side, side, 2, 2, mv).map_or(
        [0u8; 441],
        |halo| halo.samples,
    );
    print!(rt; "luma halo at {what} {side}:")?;
    every(rt, &edge(halo, across))
}

pub fn all(rt: &HostRuntime) -> io::Result<()> {
    fetched(rt, "column 2, width", 21, true)?;
    fetched(rt, "column 2, width", 20, true)?;
    fetched(rt, "row 2, height", 21, false)?;
    fetched(rt, "row 2, height", 20, false)
}
