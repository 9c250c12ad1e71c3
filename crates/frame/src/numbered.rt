// The number of a frame: each test is made of all that it concerns before the next is made of any.
ghost use Rattle.std.specs.Prelude.{◌≡◌};
ghost use Rattle.numbers.specs.Outcome.{told};
ghost use Rattle.rfc6386.specs.Refusal.{Sized};
ghost use Rattle.frame.specs.Frame.{references_refusal, output_refusal, frame_number};
ghost use Rattle.frame.specs.Inner.{planes_in, references_in, asked_in};

use crate::Strides;
use crate::orders::orders_refusal;
use crate::pictures::{Picture, Pictures, Task};
use numbers::Refusal;
use rfc6386::Sizes;

// 1, 2 and 3, of three references.
fn references_refusal(pictures: Pictures<'_>, sizes: Sizes) -> Result<(), Refusal>
    ensures { told result ≡ references_refusal (references_in sizes pictures.entry) }
{
    pictures.last.refusal(sizes)?;
    pictures.golden.refusal(sizes)?;
    pictures.altref.refusal(sizes)
}

// 7, of planes that are to be written, where the size is none to be refused.
fn output_refusal(out: Picture<'_>, strides: Strides, sizes: Sizes) -> Result<(), Refusal>
    requires { Sized sizes.mb_cols sizes.mb_rows }
    ensures { told result ≡ output_refusal (planes_in out.entry) strides sizes }
{
    let own = Sizes {
        y_stride: strides.y,
        u_stride: strides.u,
        v_stride: strides.v,
        mb_cols: sizes.mb_cols,
        mb_rows: sizes.mb_rows,
    };
    out.refusal(own).or(Err(Refusal::Room))
}

pub fn frame_refusal(
    task: Task<'_>,
    codes: Result<(), Refusal>,
    out: Picture<'_>,
) -> Result<(), Refusal>
    ensures { told result ≡ frame_number (asked_in task.entry) (told codes) (planes_in out.entry) task.entry.frame.strides }
{
    let frame = task.frame;
    let sizes = frame.sizes;
    references_refusal(task.pictures, sizes)?;
    codes?;
    output_refusal(out, frame.strides, sizes)?;
    orders_refusal(task.orders, sizes.mb_rows * sizes.mb_cols)
}
