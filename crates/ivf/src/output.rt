// The mended file, written to a lent output.
ghost use Rattle.std.specs.Prelude.{◌≡◌, ◌+◌, ◌<◌, ◌≤◌, length, drop};
ghost use Rattle.std.proofs.Math.Seq.{paste};
ghost use Rattle.ivf.specs.Mending.{kept, counted};
ghost use Rattle.ivf.specs.Inner.{Sized, Copies, Writes};

use crate::frames::{Frames, pass};

// n bytes of file from byte `from` on, to the same place in out. A loop, since `copy_from_slice` makes the library call `memmove`, which
// include/threshowl.h does not ask of a host.
fn copy(file: &[u8], out: &mut [u8], from: usize, n: usize)
    requires n_in_bounds { from + n ≤ length file.now }
    requires n_in_bounds_2 { from + n ≤ length out.old }
    ensures { out.new ≡ paste out.old from (drop from file.now) n }
{
    for i in 0..n {
        out[from + i] = file[from + i];
    }
}

// The header and the complete frames. They are copied some 512 bytes at a time, as they are passed: so the size of the next frame lies next
// to the bytes that were read last, and the processor need not wait for it.
// A `while`: each step is as long as the frames that were passed.
fn copy_frames(file: &[u8], out: &mut [u8]) -> Frames
    requires sized { Sized file.now }
    requires file_in_bounds { kept file.now ≤ length out.old }
    ensures { Copies file.now out.old result out.new }
{
    let mut done: usize = 0;
    let mut frames = pass(file, Frames { end: 32, count: 0 }, 512);
    while done < frames.end {
        copy(file, out, done, frames.end - done);
        done = frames.end;
        frames = pass(file, frames, done + 512);
    }
    frames
}

// The count, in bytes 24 to 27.
fn stamp(out: &mut [u8], count: u32)
    requires { 28 ≤ length out.old }
    ensures { out.new ≡ counted count out.old }
{
    out[24..28].copy_from_slice(&count.to_le_bytes());
}

pub fn write_mended(file: &[u8], out: &mut [u8]) -> Frames
    requires sized { Sized file.now }
    requires file_in_bounds { kept file.now ≤ length out.old }
    ensures { Writes file.now out.old result out.new }
{
    let frames = copy_frames(file, out);
    stamp(out, frames.count as u32);
    frames
}
