// A refusal of a caller's own.
ghost use Rattle.std.specs.Prelude.{◌<◌};

// Its number, which is none of this library's.
#[derive(Clone, Copy, Debug, PartialEq, Eq)]
pub struct Other {
    pub number: u32,
    ghost beyond: { 16 < number },
}
