// A frame, macroblock by macroblock. The planes that are written are three parameters: with a struct that holds them as `&mut`, each function and
// each loop would have to say of each plane that it is still the same one.
ghost use Rattle.std.specs.Prelude.{◌≡◌, ◌*◌, ◌<◌, false, length};
ghost use Rattle.numbers.specs.Outcome.{told};
ghost use Rattle.frame.specs.Frame.{planes, asked_of, any_bad, Fills};
ghost use Rattle.frame.specs.Inner.{asked_in, Ready, RowWritten, RowsWritten};

use crate::Frame;
use crate::macroblocks::{order_into, put_macroblock};
use crate::numbered::frame_refusal;
use crate::pictures::{Picture, Pictures, Task};
use numbers::Refusal;

// One row of macroblocks.
fn predict_row(task: Task<'_>, row: usize, out_y: &mut [u8], out_u: &mut [u8], out_v: &mut [u8])
    requires ready { Ready (asked_in task) task.frame.strides (length out_y.old) (length out_u.old) (length out_v.old) }
    requires good { any_bad task.orders.now (task.frame.sizes.mb_rows * task.frame.sizes.mb_cols) ≡ false }
    requires row_bound { row < task.frame.sizes.mb_rows }
    ensures { RowWritten (asked_in task.entry) task.entry.frame.strides row task.entry.frame.sizes.mb_cols (planes out_y.old out_u.old out_v.old) (planes out_y.new out_u.new out_v.new) }
{
    let frame = task.frame;
    let mut mb = [0u8; 384];
    for col in 0..frame.sizes.mb_cols {
        order_into(task, col, row, &mut mb);
        put_macroblock(&mb, out_y, out_u, out_v, frame.strides, col, row);
    }
}

// All rows.
fn predict_rows(task: Task<'_>, out_y: &mut [u8], out_u: &mut [u8], out_v: &mut [u8])
    requires ready { Ready (asked_in task) task.frame.strides (length out_y.old) (length out_u.old) (length out_v.old) }
    requires good { any_bad task.orders.now (task.frame.sizes.mb_rows * task.frame.sizes.mb_cols) ≡ false }
    ensures { RowsWritten (asked_in task.entry) task.entry.frame.strides task.entry.frame.sizes.mb_rows (planes out_y.old out_u.old out_v.old) (planes out_y.new out_u.new out_v.new) }
{
    for row in 0..task.frame.sizes.mb_rows {
        predict_row(task, row, out_y, out_u, out_v);
    }
}

// Writes the frame where nothing is refused. `codes` is what the codes beside the orders are refused for, if they are: that comes after what the
// references are refused for. The planes are parameters of their own, as C hands them over.
pub fn predict_frame<'a>(
    last_y: &'a [u8],
    last_u: &'a [u8],
    last_v: &'a [u8],
    golden_y: &'a [u8],
    golden_u: &'a [u8],
    golden_v: &'a [u8],
    altref_y: &'a [u8],
    altref_u: &'a [u8],
    altref_v: &'a [u8],
    frame: Frame,
    orders: &[u8],
    codes: Result<(), Refusal>,
    out_y: &mut [u8],
    out_u: &mut [u8],
    out_v: &mut [u8],
) -> Result<(), Refusal>
    ensures { Fills (asked_of frame last_y.now last_u.now last_v.now golden_y.now golden_u.now golden_v.now altref_y.now altref_u.now altref_v.now orders.now) (told codes) (planes out_y.old out_u.old out_v.old) frame.strides (told result) (planes out_y.new out_u.new out_v.new) }
{
    let pictures = Pictures {
        last: Picture {
            y: last_y,
            u: last_u,
            v: last_v,
        },
        golden: Picture {
            y: golden_y,
            u: golden_u,
            v: golden_v,
        },
        altref: Picture {
            y: altref_y,
            u: altref_u,
            v: altref_v,
        },
    };
    let task = Task {
        pictures,
        frame,
        orders,
    };
    let out = Picture {
        y: &*out_y,
        u: &*out_u,
        v: &*out_v,
    };
    frame_refusal(task, codes, out)?;
    predict_rows(task, out_y, out_u, out_v);
    Ok(())
}
