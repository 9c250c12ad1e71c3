// Prediction by version, with every version number: on good input, in both modes, and with every other fault at once.
use crate::say::macroblock;
use rfc6386::{Mv, Sizes};
use std::io;
use versions::{predict_inter_mb_by_version, predict_split_mv_by_version};

fn both(
    rt: &HostRuntime,
    y: &[u8],
    uv: &[u8],
    sizes: Sizes,
    at: usize,
    version: u8,
    standard: bool,
) -> io::Result<()> {
    let mv = Mv { row: 0, col: 0 };
    let whole = predict_inter_mb_by_version(y, uv, uv, sizes, at, at, mv, version, standard);
    let split = predict_split_mv_by_version(y, uv, uv, sizes, at, at, [mv; 16], version, standard);
    print!(rt; " whole {}, split {}", macroblock(whole), macroblock(split))
}

fn line(rt: &HostRuntime, version: u8) -> io::Result<()> {
    let good = Sizes {
        y_stride: 16,
        u_stride: 8,
        v_stride: 8,
        mb_cols: 1,
        mb_rows: 1,
    };
    let bad = Sizes {
        y_stride: 0,
        u_stride: 0,
        v_stride: 0,
        mb_cols: 0,
        mb_rows: 0,
    };
    print!(rt; "version {version}:")?;
    both(rt, &[200u8; 256], &[200u8; 64], good, 0, version, false)?;
    print!(rt; "; by the standard:")?;
    both(rt, &[200u8; 256], &[200u8; 64], good, 0, version, true)?;
    print!(rt; "; nothing in order:")?;
    both(rt, b"", b"", bad, 1, version, true)?;
    println!(rt; "")
}

pub fn all(rt: &HostRuntime) -> io::Result<()> {
    for version in 0..=255u8 {
        line(rt, version)?;
    }
    Ok(())
}
