// Prediction over `ReferencePlanes`: each entry takes the record apart and calls the function of the same name on plain slices.
// There are three, as in the Rust, whose names they have, and whose parameters but for the table's name.
ghost use Rattle.std.specs.Prelude.{◌≡◌};
ghost use Rattle.rfc6386.specs.Answer.{report_told};
ghost use Rattle.rfc6386.specs.Vector.{lowering_of};
ghost use Rattle.rfc6386.specs.Macroblock.{lent};
ghost use Rattle.rfc6386.specs.Report.{whole_report, whole_pixel_report, split_report};

use numbers::Refusal;
use rfc6386::{FilterSet, Mv, Predicted, Sizes};

// The planes of one reference picture, with their strides and the picture's size in macroblocks: flat, as the Rust's record is.
#[derive(Clone, Copy)]
pub struct ReferencePlanes<'a> {
    pub y: &'a [u8],
    pub u: &'a [u8],
    pub v: &'a [u8],
    pub y_stride: usize,
    pub u_stride: usize,
    pub v_stride: usize,
    pub mb_cols: usize,
    pub mb_rows: usize,
}

impl<'a> ReferencePlanes<'a> {
    pub fn sizes(self) -> Sizes
        ensures { result ≡ record { y_stride = self.entry.y_stride; u_stride = self.entry.u_stride; v_stride = self.entry.v_stride; mb_cols = self.entry.mb_cols; mb_rows = self.entry.mb_rows } }
    {
        Sizes {
            y_stride: self.y_stride,
            u_stride: self.u_stride,
            v_stride: self.v_stride,
            mb_cols: self.mb_cols,
            mb_rows: self.mb_rows,
        }
    }
}

pub fn predict_inter_mb_whole_pixel<'a>(
    reference: ReferencePlanes<'a>,
    mb_col: usize,
    mb_row: usize,
    luma_mv: Mv,
    full_pixel: bool,
) -> Result<Predicted, Refusal>
    ensures { report_told result ≡ whole_pixel_report (lowering_of full_pixel) (lent reference.entry.y.now reference.entry.u.now reference.entry.v.now (record { y_stride = reference.entry.y_stride; u_stride = reference.entry.u_stride; v_stride = reference.entry.v_stride; mb_cols = reference.entry.mb_cols; mb_rows = reference.entry.mb_rows })) mb_col mb_row luma_mv }
{
    prediction::predict_inter_mb_whole_pixel(
        reference.y,
        reference.u,
        reference.v,
        reference.sizes(),
        mb_col,
        mb_row,
        luma_mv,
        full_pixel,
    )
}

pub fn predict_inter_mb<'a>(
    reference: ReferencePlanes<'a>,
    mb_col: usize,
    mb_row: usize,
    luma_mv: Mv,
    full_pixel: bool,
    set: FilterSet,
) -> Result<Predicted, Refusal>
    ensures { report_told result ≡ whole_report set (lowering_of full_pixel) (lent reference.entry.y.now reference.entry.u.now reference.entry.v.now (record { y_stride = reference.entry.y_stride; u_stride = reference.entry.u_stride; v_stride = reference.entry.v_stride; mb_cols = reference.entry.mb_cols; mb_rows = reference.entry.mb_rows })) mb_col mb_row luma_mv }
{
    prediction::predict_inter_mb(
        reference.y,
        reference.u,
        reference.v,
        reference.sizes(),
        mb_col,
        mb_row,
        luma_mv,
        full_pixel,
        set,
    )
}

pub fn predict_split_mv<'a>(
    reference: ReferencePlanes<'a>,
    mb_col: usize,
    mb_row: usize,
    split_luma_mvs: [Mv; 16],
    full_pixel: bool,
    set: FilterSet,
) -> Result<Predicted, Refusal>
    ensures { report_told result ≡ split_report set (lowering_of full_pixel) (lent reference.entry.y.now reference.entry.u.now reference.entry.v.now (record { y_stride = reference.entry.y_stride; u_stride = reference.entry.u_stride; v_stride = reference.entry.v_stride; mb_cols = reference.entry.mb_cols; mb_rows = reference.entry.mb_rows })) mb_col mb_row split_luma_mvs }
{
    prediction::predict_split_mv(
        reference.y,
        reference.u,
        reference.v,
        reference.sizes(),
        mb_col,
        mb_row,
        split_luma_mvs,
        full_pixel,
        set,
    )
}
