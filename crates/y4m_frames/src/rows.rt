// Rows of samples, copied and padded.
// A plane is a place in a list, since C lends the three as one; `put` speaks of the whole list.
ghost use Rattle.std.specs.Prelude.{◌≡◌, ◌+◌, ◌-◌, ◌≤◌, pos, length, get_or};
ghost use Rattle.rfc6386.specs.Number.{clamped};
ghost use Rattle.rfc6386.specs.Raster.{tab};
ghost use Rattle.y4m_frames.specs.Frames.{padded_plane, cropped_plane};
ghost use Rattle.y4m_frames.specs.Inner.{put, Padding, Cropping};

use crate::planes::Plane;

// A loop, since `copy_from_slice` makes the library call `memmove`, which include/threshowl.h does not ask of a host.
pub fn copy(s: &[u8], from: usize, out: &mut [u8], at: usize, n: usize)
    requires { (from + n ≤ length s.now) × (at + n ≤ length out.old) }
    ensures { out.new ≡ put out.old at (tab n (λ i. get_or s.now (from + i) 0)) }
{
    for i in 0..n {
        out[at + i] = s[from + i];
    }
}

fn fill(out: &mut [u8], at: usize, n: usize, b: u8)
    requires { at + n ≤ length out.old }
    ensures { out.new ≡ put out.old at (tab n (λ i. b)) }
{
    out[at..at + n].fill(b);
}

// A row of w samples, padded to pw.
fn pad_row(s: &[u8], from: usize, w: usize, out: &mut [u8], at: usize, pw: usize)
    requires { (1 ≤ w) × (w ≤ pw) × (from + w ≤ length s.now) × (at + pw ≤ length out.old) }
    ensures { out.new ≡ put out.old at (tab pw (λ c. get_or s.now (from + clamped (pos c) w) 0)) }
{
    copy(s, from, out, at, w);
    let last = s[from + (w - 1)];
    fill(out, at + w, pw - w, last);
}

// A plane that begins at `from`, padded.
pub fn pad_plane(s: &[u8], from: usize, p: Plane, out: &mut [u8], at: usize)
    requires { Padding (length s.now) from p.width p.height (length out.old) at p.wide p.high }
    ensures { out.new ≡ put out.old at (padded_plane s.now from p) }
{
    for r in 0..p.high {
        let row = r.min(p.height - 1);
        pad_row(
            s,
            from + row * p.width,
            p.width,
            out,
            at + r * p.wide,
            p.wide,
        );
    }
}

// A plane without its padding, from a padded one that begins at `from`.
pub fn crop_plane(s: &[u8], from: usize, p: Plane, out: &mut [u8], at: usize)
    requires { Cropping (length s.now) from p.wide (length out.old) at p.width p.height }
    ensures { out.new ≡ put out.old at (cropped_plane s.now from p) }
{
    for r in 0..p.height {
        copy(s, from + r * p.wide, out, at + r * p.width, p.width);
    }
}
