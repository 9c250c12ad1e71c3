// Two windows of 13 columns and `rows` + 5 rows, out of which two strips of 8 columns are made.
ghost use Rattle.std.specs.Prelude.{ℕ, ◌+◌, ◌<◌, ◌≤◌, length, get_or};
ghost use Rattle.steps.specs.Rows.{Held};

use steps::rect::Window;

// That their samples are bytes are fields too: a proof knows it of a parameter, but not of a struct's slice.
#[derive(Clone, Copy)]
pub struct Pair<'a> {
    pub left: &'a [u8],
    pub l: Window,
    pub right: &'a [u8],
    pub r: Window,
    pub rows: usize,
    ghost few: { rows ≤ 8 },
    ghost left_held: { Held (length left.now) l.at l.pitch 13 (rows + 5) },
    ghost right_held: { Held (length right.now) r.at r.pitch 13 (rows + 5) },
    ghost left_bytes: { (i : ℕ) → get_or left.now i 0 < 256 },
    ghost right_bytes: { (i : ℕ) → get_or right.now i 0 < 256 },
}
