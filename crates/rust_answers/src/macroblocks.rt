// Records of predictions. A split one also holds merging prediction to its answer, and where a version asks for the filter and the flag the
// predictions by version are held to it too.
use crate::functions::Function;
use crate::tally::Tally;
use numbers::Refusal;
use prediction::{predict_inter_mb, predict_merging, predict_split_mv};
use rfc6386::{FilterSet, Predicted, ReconstructedMb, Sizes};
use shims::bytes::{byte_at, flat, mv_of, mvs_of, part};
use shims::codes::set_of;
use shims::planes::shim_whole_pixel;
use versions::{predict_inter_mb_by_version, predict_split_mv_by_version};

// The planes that stand, and their sizes.
#[derive(Clone, Copy)]
pub struct Picture<'a> {
    pub y: &'a [u8],
    pub u: &'a [u8],
    pub v: &'a [u8],
    pub sizes: Sizes,
}

// What whole and split records begin with.
#[derive(Clone, Copy)]
struct Asked {
    col: usize,
    row: usize,
    full_pixel: bool,
    set: FilterSet,
    // where one asks for this filter and this flag: none asks for six-tap with the flag
    version: Option<u8>,
}

fn asked_of(r: &[u8]) -> Asked {
    let full_pixel = byte_at(r, 2) != 0;
    let filter = byte_at(r, 3);
    let version = if filter != 0 || !full_pixel {
        Some(byte_at(r, 4))
    } else {
        None
    };
    Asked {
        col: usize::from(byte_at(r, 0)),
        row: usize::from(byte_at(r, 1)),
        full_pixel,
        set: set_of(filter),
        version,
    }
}

fn is(made: Result<ReconstructedMb, Refusal>, answer: &[u8]) -> bool {
    match made {
        Ok(samples) => flat(samples).as_slice() == answer,
        Err(_) => false,
    }
}

fn predicted(made: Result<Predicted, Refusal>, answer: &[u8]) -> bool {
    is(made.map(|mb| mb.samples), answer)
}

fn whole_pixel(p: Picture<'_>, r: &[u8], t: Tally) -> Tally {
    let mv = mv_of(part(r, 3, 4));
    let mut out = [0u8; 384];
    let number = shim_whole_pixel(
        p.y,
        p.u,
        p.v,
        p.sizes.y_stride,
        p.sizes.u_stride,
        p.sizes.v_stride,
        p.sizes.mb_cols,
        p.sizes.mb_rows,
        usize::from(byte_at(r, 0)),
        usize::from(byte_at(r, 1)),
        mv.row,
        mv.col,
        byte_at(r, 2),
        &mut out,
    );
    let same = number == u32::from(byte_at(r, 7)) && out.as_slice() == part(r, 8, 384);
    t.with(Function::PredictInterMbWholePixel, same)
}

fn whole(p: Picture<'_>, r: &[u8], t: Tally) -> Tally {
    let a = asked_of(r);
    let mv = mv_of(part(r, 5, 4));
    let answer = part(r, 9, 384);
    let made = predict_inter_mb(
        p.y,
        p.u,
        p.v,
        p.sizes,
        a.col,
        a.row,
        mv,
        a.full_pixel,
        a.set,
    );
    let held = t.with(Function::PredictInterMb, predicted(made, answer));
    let Some(version) = a.version else {
        return held;
    };
    let by_version = predict_inter_mb_by_version(
        p.y, p.u, p.v, p.sizes, a.col, a.row, mv, version, false,
    );
    held.with(Function::PredictInterMbByVersion, is(by_version, answer))
}

fn split(p: Picture<'_>, r: &[u8], t: Tally) -> Tally {
    let a = asked_of(r);
    let mvs = mvs_of(part(r, 5, 64));
    let answer = part(r, 69, 384);
    let apart = predict_split_mv(
        p.y,
        p.u,
        p.v,
        p.sizes,
        a.col,
        a.row,
        mvs,
        a.full_pixel,
        a.set,
    );
    let merging = predict_merging(
        p.y,
        p.u,
        p.v,
        p.sizes,
        a.col,
        a.row,
        mvs,
        a.full_pixel,
        a.set,
    );
    let held = t
        .with(Function::PredictSplitMv, predicted(apart, answer))
        .with(Function::PredictMerging, predicted(merging, answer));
    let Some(version) = a.version else {
        return held;
    };
    let by_version = predict_split_mv_by_version(
        p.y, p.u, p.v, p.sizes, a.col, a.row, mvs, version, false,
    );
    held.with(Function::PredictSplitMvByVersion, is(by_version, answer))
}

// The tally with what a record of that function adds.
pub fn held(function: Function, p: Picture<'_>, r: &[u8], t: Tally) -> Tally {
    match function {
        Function::PredictInterMbWholePixel => whole_pixel(p, r, t),
        Function::PredictInterMb => whole(p, r, t),
        Function::PredictSplitMv => split(p, r, t),
        _ => t,
    }
}
