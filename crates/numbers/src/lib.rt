// Why a call refuses, and the number that C gets for it, 0 where it does not. README says when each is given, and the definitions say exactly.
#![tactic(auto)]

mod other;

ghost use Rattle.std.specs.Prelude.{◌≡◌};
ghost use Rattle.numbers.specs.Outcome.{number_of, told};

pub use other::Other;

#[derive(Clone, Copy, Debug, PartialEq, Eq)]
pub enum Refusal {
    // no columns or rows, or too many
    Size,
    // a stride below its plane's width, or too large
    Stride,
    // a plane with too few bytes
    Length,
    // a position outside the picture
    Position,
    // a fraction or a filter's code that there is not
    Code,
    // not sixteen vectors
    Vectors,
    // an output that does not fit
    Room,
    // a fraction is left where there should be none
    Fraction,
    // orders of another length, or a code in them that there is not; a kind of prediction that there is not
    Orders,
    // a version that is reserved, or cannot be
    Version,
    // a coefficient outside the domain
    Domain,
    // not the header of a Y4M file
    Header,
    // not the mark of a Y4M frame
    Mark,
    // a Y4M frame that is cut short
    Cut,
    // not a recording
    Recording,
    // a running total that would leave 64 bits
    Totals,
    // a refusal of the caller's own, handed over to stand among these
    Other(Other),
}

impl From<Refusal> for u32 {
    ghost from_gives = { λ refusal number. number ≡ number_of refusal };

    fn from(refusal: Refusal) -> u32 {
        match refusal {
            Refusal::Size => 1,
            Refusal::Stride => 2,
            Refusal::Length => 3,
            Refusal::Position => 4,
            Refusal::Code => 5,
            Refusal::Vectors => 6,
            Refusal::Room => 7,
            Refusal::Fraction => 8,
            Refusal::Orders => 9,
            Refusal::Version => 10,
            Refusal::Domain => 11,
            Refusal::Header => 12,
            Refusal::Mark => 13,
            Refusal::Cut => 14,
            Refusal::Recording => 15,
            Refusal::Totals => 16,
            Refusal::Other(other) => other.number,
        }
    }
}

// The number of a call that gives back nothing more.
pub fn number(done: Result<(), Refusal>) -> u32
    ensures { result ≡ told done }
{
    match done {
        Ok(()) => 0,
        Err(refusal) => u32::from(refusal),
    }
}

// What a number tells: 0 is done, and every other number a refusal.
pub fn refusal_of(number: u32) -> Result<(), Refusal>
    ensures { told result ≡ number }
{
    Err(match number {
        0 => return Ok(()),
        1 => Refusal::Size,
        2 => Refusal::Stride,
        3 => Refusal::Length,
        4 => Refusal::Position,
        5 => Refusal::Code,
        6 => Refusal::Vectors,
        7 => Refusal::Room,
        8 => Refusal::Fraction,
        9 => Refusal::Orders,
        10 => Refusal::Version,
        11 => Refusal::Domain,
        12 => Refusal::Header,
        13 => Refusal::Mark,
        14 => Refusal::Cut,
        15 => Refusal::Recording,
        16 => Refusal::Totals,
        _ => Refusal::Other(Other { number }),
    })
}
