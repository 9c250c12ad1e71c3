// Clipped samples, out of the numbers that the filters add up.
ghost use Rattle.std.specs.Prelude.{◌≡◌, ◌-◌, ◌/◌, ◌%◌, ◌≤◌};
ghost use Rattle.steps.specs.Tally.{part};

use rfc6386::{Clip, Clips};

// What happened to one sample, by its part.
pub fn clip_of(p: u16) -> Clip
    ensures { (c : Clip) → p ≡ part c → result ≡ c }
{
    match p {
        0 => Clip::None,
        1 => Clip::High,
        _ => Clip::Low,
    }
}

// Both totals.
pub fn clips_of(tally: u32) -> Clips
    requires { tally / 512 ≤ tally % 512 }
    ensures { result ≡ record { low = tally / 512; high = tally % 512 - tally / 512 } }
{
    Clips {
        low: tally / 512,
        high: tally % 512 - tally / 512,
    }
}
