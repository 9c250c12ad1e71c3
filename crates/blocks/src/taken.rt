// What blocks take, in one number that is added up: how many samples they fetch, and above 32 bits the tally of those that are clipped.
// It is no record of two, so that every function above the filters adds once a block.
ghost use Rattle.std.specs.Prelude.{◌≡◌, ◌+◌, ◌-◌, ◌*◌, ◌/◌, ◌%◌, ◌<◌, ◌≤◌};

use rfc6386::Clips;
use steps::tally::clips_of;

pub fn took(fetched: u64, tally: u32) -> u64
    requires { fetched < 4294967296 }
    ensures { result ≡ fetched + 4294967296 * tally }
{
    fetched + (tally as u64) * 4294967296
}

pub fn fetched(all: u64) -> u64
    ensures { result ≡ all % 4294967296 }
{
    all % 4294967296
}

pub fn clips(all: u64) -> Clips
    requires { all / 4294967296 / 512 ≤ all / 4294967296 % 512 }
    ensures { result ≡ record { low = all / 4294967296 / 512; high = all / 4294967296 % 512 - all / 4294967296 / 512 } }
{
    clips_of((all / 4294967296) as u32)
}
