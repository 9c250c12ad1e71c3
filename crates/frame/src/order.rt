// One order of a list: 66 bytes, of which the first names the reference, the second says whether the macroblock is whole or split, and the rest
// are sixteen vectors.
ghost use Rattle.std.specs.Prelude.{◌+◌, ◌*◌, ◌≤◌, length};

// Order k, in raster order.
// It is a number in the whole list, as for the definitions `codes_at` and `vectors_at`.
#[derive(Clone, Copy)]
pub struct Order<'a> {
    pub orders: &'a [u8],
    pub k: usize,
    ghost inside: { 66 * k + 66 ≤ length orders.now },
}
