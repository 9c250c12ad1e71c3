// One macroblock of a frame: predicted by its order, and put in its place.
ghost use Rattle.std.specs.Prelude.{◌≡◌, ◌+◌, ◌*◌, ◌<◌, ◌≤◌, false, length, get_or};
ghost use Rattle.rfc6386.specs.Raster.{written};
ghost use Rattle.rfc6386.specs.Macroblock.{refusal};
ghost use Rattle.steps.specs.Rows.{Room};
ghost use Rattle.outputs.specs.Output.{flat};
ghost use Rattle.frame.specs.Frame.{reference, reference_code, bad_order, prediction_at};
ghost use Rattle.frame.specs.Inner.{references_in, asked_in};

use crate::Strides;
use crate::order::Order;
use crate::orders::Kind;
use crate::pictures::{Picture, Task};
use motion_vectors::lowering_of;
use outputs::{quarters_into, whole_into};
use steps::rect::{Spot, Window, copy_rect};

// The samples of the macroblock at column col, row row by its order, one after the other.
// They go to a slice whose length is asked: what fills it takes any output that C lends.
pub fn order_into(task: Task<'_>, col: usize, row: usize, mb: &mut [u8])
    requires order_lies { 66 * (row * task.frame.sizes.mb_cols + col) + 66 ≤ length task.orders.now }
    requires good { bad_order task.orders.now (row * task.frame.sizes.mb_cols + col) ≡ false }
    requires row_value { refusal (reference (references_in task.frame.sizes task.pictures) (reference_code task.orders.now (row * task.frame.sizes.mb_cols + col))) col row ≡ 0 }
    requires mb_len { length mb.old ≡ 384 }
    ensures { mb.new ≡ flat (prediction_at (asked_in task.entry) col row).samples }
{
    let frame = task.frame;
    let sizes = frame.sizes;
    let set = frame.set;
    let order = Order {
        orders: task.orders,
        k: row * sizes.mb_cols + col,
    };
    let Ok(codes) = order.codes() else {
        unreachable!()
    };
    let Picture { y, u, v } = task.pictures.named(codes.named);
    // nothing is refused here: what the calls tell beside the samples is not asked for
    match codes.kind {
        Kind::Whole => {
            let mv = order.first_vector();
            let lowering = lowering_of(frame.full_pixel);
            let _ended = whole_into(y, u, v, sizes, col, row, mv, lowering, set, Ok(()), mb);
        }
        Kind::Split => {
            let mvs = order.vectors();
            let lower = frame.full_pixel;
            let _ended = quarters_into(y, u, v, sizes, col, row, mvs, lower, set, Ok(()), mb);
        }
    }
}

// Such samples, written to their rows.
pub fn put_macroblock(
    mb: &[u8],
    out_y: &mut [u8],
    out_u: &mut [u8],
    out_v: &mut [u8],
    strides: Strides,
    col: usize,
    row: usize,
)
    requires mb_len { length mb.now ≡ 384 }
    requires col_bound { (col < 1024) × (row < 1024) }
    requires room { Room (length out_y.old) strides.y (col * 16) (row * 16) 16 16 }
    requires room_2 { Room (length out_u.old) strides.u (col * 8) (row * 8) 8 8 }
    requires room_3 { Room (length out_v.old) strides.v (col * 8) (row * 8) 8 8 }
    ensures out_y_after { out_y.new ≡ written out_y.old strides.y (col * 16) (row * 16) 16 16 (λ r c. get_or mb.now (0 + r * 16 + c) 0) }
    ensures out_u_after { out_u.new ≡ written out_u.old strides.u (col * 8) (row * 8) 8 8 (λ r c. get_or mb.now (256 + r * 8 + c) 0) }
    ensures out_v_after { out_v.new ≡ written out_v.old strides.v (col * 8) (row * 8) 8 8 (λ r c. get_or mb.now (320 + r * 8 + c) 0) }
{
    let y_spot = Spot {
        stride: strides.y,
        x: col * 16,
        y: row * 16,
    };
    let u_spot = Spot {
        stride: strides.u,
        x: col * 8,
        y: row * 8,
    };
    let v_spot = Spot {
        stride: strides.v,
        x: col * 8,
        y: row * 8,
    };
    copy_rect(out_y, y_spot, 16, 16, mb, Window { at: 0, pitch: 16 });
    copy_rect(out_u, u_spot, 8, 8, mb, Window { at: 256, pitch: 8 });
    copy_rect(out_v, v_spot, 8, 8, mb, Window { at: 320, pitch: 8 });
}
