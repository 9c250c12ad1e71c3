// What a line is put together from.
use numbers::Refusal;
use rfc6386::ReconstructedMb;
use std::{fmt, io};

// How many bytes are not 0.
pub fn not_zero(s: &[u8]) -> usize {
    s.iter().filter(|b| **b != 0).count()
}

// What a call gave, such as 3/0: its number, and how many samples are not 0.
// A refusal is a number here, since that is what is printed.
#[derive(Clone, Copy)]
pub struct Outcome {
    pub number: u32,
    pub samples: usize,
}

impl fmt::Display for Outcome {
    fn fmt<W: fmt::Write>(&self, f: &mut fmt::Formatter<W>) -> fmt::Result {
        write!(f, "{}/{}", self.number, self.samples)
    }
}

fn refused(refusal: Refusal) -> Outcome {
    Outcome {
        number: u32::from(refusal),
        samples: 0,
    }
}

// Of a call that gives a square.
pub fn square<const N: usize>(made: Result<[u8; N], Refusal>) -> Outcome {
    match made {
        Ok(samples) => Outcome {
            number: 0,
            samples: not_zero(&samples),
        },
        Err(refusal) => refused(refusal),
    }
}

// Of one that gives a macroblock.
pub fn macroblock(made: Result<ReconstructedMb, Refusal>) -> Outcome {
    match made {
        Ok(mb) => Outcome {
            number: 0,
            samples: not_zero(&mb.y)
                .wrapping_add(not_zero(&mb.u))
                .wrapping_add(not_zero(&mb.v)),
        },
        Err(refusal) => refused(refusal),
    }
}

// Every byte, to the end of the line.
pub fn every(rt: &HostRuntime, s: &[u8]) -> io::Result<()> {
    for b in s {
        print!(rt; " {b}")?;
    }
    println!(rt; "")
}
