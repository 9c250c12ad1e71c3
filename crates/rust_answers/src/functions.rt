// The functions that are held to recorded answers. Three that the Rust has not are held to the answers of others.
use std::fmt;

#[derive(Clone, Copy, Debug, PartialEq, Eq)]
pub enum Function {
    StoredLumaMv,
    ChromaMv,
    ApplyFullPixel,
    WholePixelFractionIsZero,
    ChromaIdxForLumaSubblock,
    SplitChromaMvs,
    FilterSetForVersion,
    Taps,
    Clamp255,
    Interp,
    Sixtap2d,
    SixtapMbChroma,
    SixtapMbLuma,
    FetchBlockWholePixel,
    FetchBlockHalo,
    FetchChromaMbWholePixel,
    FetchChromaMbHalo,
    FetchLumaMbWholePixel,
    FetchLumaMbHalo,
    FilterBlock4x4,
    FilterBlock4x4Into,
    PredictInterMbWholePixel,
    PredictInterMb,
    PredictInterMbByVersion,
    PredictSplitMv,
    PredictMerging,
    PredictSplitMvByVersion,
}

// As they are declared, and as they are written of.
pub const FUNCTIONS: [Function; 27] = [
    Function::StoredLumaMv,
    Function::ChromaMv,
    Function::ApplyFullPixel,
    Function::WholePixelFractionIsZero,
    Function::ChromaIdxForLumaSubblock,
    Function::SplitChromaMvs,
    Function::FilterSetForVersion,
    Function::Taps,
    Function::Clamp255,
    Function::Interp,
    Function::Sixtap2d,
    Function::SixtapMbChroma,
    Function::SixtapMbLuma,
    Function::FetchBlockWholePixel,
    Function::FetchBlockHalo,
    Function::FetchChromaMbWholePixel,
    Function::FetchChromaMbHalo,
    Function::FetchLumaMbWholePixel,
    Function::FetchLumaMbHalo,
    Function::FilterBlock4x4,
    Function::FilterBlock4x4Into,
    Function::PredictInterMbWholePixel,
    Function::PredictInterMb,
    Function::PredictInterMbByVersion,
    Function::PredictSplitMv,
    Function::PredictMerging,
    Function::PredictSplitMvByVersion,
];

// A byte that begins no record of an answer.
#[derive(Clone, Copy)]
pub struct NoAnswer;

// By the first byte of a record.
impl TryFrom<u8> for Function {
    type Error = NoAnswer;

    fn try_from(kind: u8) -> Result<Function, NoAnswer> {
        let function = match kind {
            2 => Function::StoredLumaMv,
            3 => Function::ChromaMv,
            4 => Function::ApplyFullPixel,
            5 => Function::WholePixelFractionIsZero,
            6 => Function::ChromaIdxForLumaSubblock,
            7 => Function::SplitChromaMvs,
            8 => Function::FilterSetForVersion,
            9 => Function::Taps,
            10 => Function::Clamp255,
            11 => Function::Interp,
            12 => Function::Sixtap2d,
            13 => Function::SixtapMbChroma,
            14 => Function::SixtapMbLuma,
            15 => Function::FetchBlockWholePixel,
            16 => Function::FetchBlockHalo,
            17 => Function::FetchChromaMbWholePixel,
            18 => Function::FetchChromaMbHalo,
            19 => Function::FetchLumaMbWholePixel,
            20 => Function::FetchLumaMbHalo,
            21 => Function::FilterBlock4x4,
            22 => Function::FilterBlock4x4Into,
            23 => Function::PredictInterMbWholePixel,
            24 => Function::PredictInterMb,
            25 => Function::PredictSplitMv,
            _ => return Err(NoAnswer),
        };
        Ok(function)
    }
}

// The bytes of a record after its first.
pub fn length_of(function: Function) -> usize {
    match function {
        Function::StoredLumaMv | Function::ChromaMv | Function::ApplyFullPixel => 8,
        Function::WholePixelFractionIsZero => 5,
        Function::ChromaIdxForLumaSubblock => 9,
        Function::SplitChromaMvs => 80,
        Function::FilterSetForVersion => 2,
        Function::Taps => 7,
        Function::Clamp255 => 5,
        Function::Interp => 9,
        Function::Sixtap2d => 100,
        Function::SixtapMbChroma => 236,
        Function::SixtapMbLuma => 700,
        Function::FetchBlockWholePixel => 24,
        Function::FetchBlockHalo => 89,
        Function::FetchChromaMbWholePixel => 72,
        Function::FetchChromaMbHalo => 177,
        Function::FetchLumaMbWholePixel => 264,
        Function::FetchLumaMbHalo => 449,
        Function::FilterBlock4x4 => 25,
        Function::FilterBlock4x4Into => 204,
        Function::PredictInterMbWholePixel => 392,
        Function::PredictInterMb | Function::PredictInterMbByVersion => 393,
        Function::PredictSplitMv | Function::PredictMerging | Function::PredictSplitMvByVersion =>
            453,
    }
}

impl fmt::Display for Function {
    fn fmt<W: fmt::Write>(&self, f: &mut fmt::Formatter<W>) -> fmt::Result {
        let name = match self {
            Function::StoredLumaMv => "stored_luma_mv",
            Function::ChromaMv => "chroma_mv",
            Function::ApplyFullPixel => "apply_full_pixel",
            Function::WholePixelFractionIsZero => "whole_pixel_fraction_is_zero",
            Function::ChromaIdxForLumaSubblock => "chroma_idx_for_luma_subblock",
            Function::SplitChromaMvs => "split_chroma_mvs",
            Function::FilterSetForVersion => "filter_set_for_version",
            Function::Taps => "taps of SIXTAP_FILTERS and BILINEAR_FILTERS",
            Function::Clamp255 => "clamp255",
            Function::Interp => "interp",
            Function::Sixtap2d => "sixtap_2d",
            Function::SixtapMbChroma => "sixtap_mb_chroma",
            Function::SixtapMbLuma => "sixtap_mb_luma",
            Function::FetchBlockWholePixel => "fetch_block_whole_pixel",
            Function::FetchBlockHalo => "fetch_block_halo",
            Function::FetchChromaMbWholePixel => "fetch_chroma_mb_whole_pixel",
            Function::FetchChromaMbHalo => "fetch_chroma_mb_halo",
            Function::FetchLumaMbWholePixel => "fetch_luma_mb_whole_pixel",
            Function::FetchLumaMbHalo => "fetch_luma_mb_halo",
            Function::FilterBlock4x4 => "filter_block_4x4",
            Function::FilterBlock4x4Into => "filter_block_4x4_into",
            Function::PredictInterMbWholePixel => "predict_inter_mb_whole_pixel",
            Function::PredictInterMb => "predict_inter_mb",
            Function::PredictInterMbByVersion => "predict_inter_mb_by_version",
            Function::PredictSplitMv => "predict_split_mv",
            Function::PredictMerging => "predict_merging",
            Function::PredictSplitMvByVersion => "predict_split_mv_by_version",
        };
        f.write_str(name)
    }
}
