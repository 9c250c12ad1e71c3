// Goes through the file: the planes of a picture, the records, and a check sum.
use crate::calls::{CALLS, Call, Picture, agrees};
use shims::bytes::{byte_at, part};
use shims::count::Count;
use shims::sums::{check_sum, long};
use std::io;

// How many answers each call was held to, and how many differ, in the calls' order.
#[derive(Clone, Copy)]
struct Tally {
    counts: [Count; 6],
}

// The tally with what the record at `at` adds: nothing where it asks for no call.
fn held(file: &[u8], at: usize, mut t: Tally) -> Tally {
    let r = part(file, at, 1261);
    let picture = Picture {
        y: part(file, 0, 1536),
        u: part(file, 1536, 384),
        v: part(file, 1920, 384),
    };
    if let Ok(call) = Call::try_from(byte_at(r, 0))
        && let Some(count) = t.counts.get_mut(call as usize)
    {
        *count = count.with(agrees(call, picture, r));
    }
    t
}

// The records of so many bytes.
fn through(file: &[u8], end: usize) -> Tally {
    let mut t = Tally {
        counts: [Count::nothing(); 6],
    };
    for at in (2304..end).step_by(1261) {
        t = held(file, at, t);
    }
    t
}

// Replays the file, whose last four bytes are the sum of those before them.
pub fn all(rt: &HostRuntime, file: &[u8]) -> io::Result<()> {
    let Some(end) = file.len().checked_sub(4) else {
        return Ok(());
    };
    for (call, count) in CALLS.iter().zip(&through(file, end).counts) {
        println!(rt; "{call}: {count}")?;
    }
    if long(part(file, end, 4)) == check_sum(part(file, 0, end)) {
        println!(rt; "the file is whole")
    } else {
        println!(rt; "the file is damaged")
    }
}
