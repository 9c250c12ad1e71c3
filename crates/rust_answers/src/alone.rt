// Records of functions that take no plane. `r` is a record after its first byte.
// The shims take codes as numbers, as C hands them over, and so does what calls them here.
use crate::functions::Function;
use filters::clamp255;
use motion_vectors::{chroma_idx_for_luma_subblock, whole_pixel_fraction_is_zero};
use rfc6386::FilterSet;
use shims::bytes::{byte_at, first, mv_of, part};
use shims::codes::set_of;
use shims::filtering::{shim_interp, shim_sixtap};
use shims::vectors::{shim_split_chroma, shim_vector};
use steps::{BILINEAR_FILTERS, SIXTAP_FILTERS};
use versions::filter_set_for_version;

fn vector(which: u8, r: &[u8]) -> bool {
    let mv = mv_of(r);
    let mut out = [0u8; 4];
    shim_vector(which, mv.row, mv.col, &mut out) == 0 && out.as_slice() == part(r, 4, 4)
}

fn no_fraction(r: &[u8]) -> bool {
    u8::from(whole_pixel_fraction_is_zero(mv_of(r))) == byte_at(r, 4)
}

fn quarter(r: &[u8]) -> bool {
    chroma_idx_for_luma_subblock(usize::from_le_bytes(first(r))) == usize::from(byte_at(r, 8))
}

fn split_chroma(r: &[u8]) -> bool {
    let mut out = [0u8; 16];
    shim_split_chroma(part(r, 0, 64), &mut out) == 0 && out.as_slice() == part(r, 64, 16)
}

// As the file has it. No `From`, which only the type's own crate can have.
fn code_of(set: FilterSet) -> u8 {
    match set {
        FilterSet::Sixtap => 0,
        FilterSet::Bilinear => 1,
    }
}

fn version(r: &[u8]) -> bool {
    code_of(filter_set_for_version(byte_at(r, 0))) == byte_at(r, 1)
}

// A tap of a table; 0 where it has none there.
fn tap_of(set: FilterSet, k: usize, place: usize) -> i32 {
    let table = match set {
        FilterSet::Sixtap => SIXTAP_FILTERS,
        FilterSet::Bilinear => BILINEAR_FILTERS,
    };
    table
        .get(k)
        .and_then(|taps| taps.get(place))
        .copied()
        .unwrap_or(0)
}

fn tap(r: &[u8]) -> bool {
    let k = usize::from(byte_at(r, 1));
    let place = usize::from(byte_at(r, 2));
    tap_of(set_of(byte_at(r, 0)), k, place) == i32::from_le_bytes(first(part(r, 3, 4)))
}

fn clamp(r: &[u8]) -> bool {
    clamp255(i32::from_le_bytes(first(r))) == byte_at(r, 4)
}

fn step(r: &[u8]) -> bool {
    let mut out = [0u8; 1];
    let number = shim_interp(
        byte_at(r, 0),
        usize::from(byte_at(r, 1)),
        part(r, 2, 6),
        &mut out,
    );
    number == 0 && out.as_slice() == part(r, 8, 1)
}

// A filter whose halo has so many samples; `out` has room for its answer.
fn filter(width: u8, halo: usize, r: &[u8], out: &mut [u8]) -> bool {
    let mx = usize::from(byte_at(r, 1));
    let my = usize::from(byte_at(r, 2));
    let number = shim_sixtap(width, part(r, 3, halo), mx, my, byte_at(r, 0), out);
    number == 0 && *out == *part(r, halo.wrapping_add(3), out.len())
}

// Whether ours gives the record's answer; none where it takes a plane.
pub fn agrees(function: Function, r: &[u8]) -> Option<bool> {
    let same = match function {
        Function::StoredLumaMv => vector(0, r),
        Function::ChromaMv => vector(1, r),
        Function::ApplyFullPixel => vector(2, r),
        Function::WholePixelFractionIsZero => no_fraction(r),
        Function::ChromaIdxForLumaSubblock => quarter(r),
        Function::SplitChromaMvs => split_chroma(r),
        Function::FilterSetForVersion => version(r),
        Function::Taps => tap(r),
        Function::Clamp255 => clamp(r),
        Function::Interp => step(r),
        Function::Sixtap2d => filter(4, 81, r, &mut [0u8; 16]),
        Function::SixtapMbChroma => filter(8, 169, r, &mut [0u8; 64]),
        Function::SixtapMbLuma => filter(16, 441, r, &mut [0u8; 256]),
        _ => return None,
    };
    Some(same)
}
