// A whole frame for C: three references, an order of 66 bytes for each macroblock, and three planes to write, with strides of their own.
ghost use Rattle.rfc6386.specs.Refusal.{code_refusal};
ghost use Rattle.frame.specs.Frame.{planes, asked_of, Fills};
ghost use Rattle.threshowl.specs.Boundary.{frame_of};

use crate::boundary::set_of;
use frame::{Frame, Strides, predict_frame};
use numbers::number;
use refusals::code_refusal;
use rfc6386::Sizes;

#[unsafe(no_mangle)]
pub extern "C" fn threshowl_predict_frame<'a>(
    last_y: &'a [u8],
    last_u: &'a [u8],
    last_v: &'a [u8],
    golden_y: &'a [u8],
    golden_u: &'a [u8],
    golden_v: &'a [u8],
    altref_y: &'a [u8],
    altref_u: &'a [u8],
    altref_v: &'a [u8],
    y_stride: usize,
    u_stride: usize,
    v_stride: usize,
    mb_cols: usize,
    mb_rows: usize,
    orders: &[u8],
    filter: u8,
    full_pixel: u8,
    out_y: &mut [u8],
    out_u: &mut [u8],
    out_v: &mut [u8],
    out_y_stride: usize,
    out_u_stride: usize,
    out_v_stride: usize,
) -> u32
    ensures { Fills (asked_of (frame_of y_stride u_stride v_stride mb_cols mb_rows filter full_pixel out_y_stride out_u_stride out_v_stride) last_y.now last_u.now last_v.now golden_y.now golden_u.now golden_v.now altref_y.now altref_u.now altref_v.now orders.now) (code_refusal filter) (planes out_y.old out_u.old out_v.old) (record { y = out_y_stride; u = out_u_stride; v = out_v_stride }) result (planes out_y.new out_u.new out_v.new) }
{
    let sizes = Sizes {
        y_stride,
        u_stride,
        v_stride,
        mb_cols,
        mb_rows,
    };
    let strides = Strides {
        y: out_y_stride,
        u: out_u_stride,
        v: out_v_stride,
    };
    let frame = Frame {
        sizes,
        strides,
        set: set_of(filter),
        full_pixel: full_pixel != 0,
    };
    number(predict_frame(
        last_y,
        last_u,
        last_v,
        golden_y,
        golden_u,
        golden_v,
        altref_y,
        altref_u,
        altref_v,
        frame,
        orders,
        code_refusal(filter),
        out_y,
        out_u,
        out_v,
    ))
}
