// The sizes of a row's taps, their signs known by place.
ghost use Rattle.std.specs.Prelude.{◌+◌, ◌≤◌};

// The sizes of six taps. Those of b and e, at places -1 and 2, are subtracted. Products with bytes, summed by sign, fit sixteen bits, and those
// that are subtracted thirteen.
#[derive(Clone, Copy)]
pub struct Taps {
    pub a: u8,
    pub b: u8,
    pub c: u8,
    pub d: u8,
    pub e: u8,
    pub f: u8,
    ghost plus: { a + c + d + f ≤ 160 },
    ghost minus: { b + e ≤ 32 },
}
