// Mending a cut recording.
// That a file is `Sized` is asked by clauses: a record of it would have to say too that its bytes are bytes, which a proof does not know of a field.
ghost use Rattle.std.specs.Prelude.{◌≡◌, ◌≤◌, length};
ghost use Rattle.ivf.specs.Format.{marked};
ghost use Rattle.ivf.specs.Mending.{not_ivf, no_room, mended_told, Mends};
ghost use Rattle.ivf.specs.Inner.{Sized};

use crate::Mended;
use crate::bytes::{read2, read4};
use crate::frames::{Frames, pass};
use crate::output::write_mended;
use numbers::Refusal;

fn is_marked(file: &[u8]) -> bool
    requires { 4 ≤ length file.now }
    ensures { result ≡ marked file.now }
{
    file.starts_with(b"DKIF")
}

#[tactic(auto, unfolding(crate::specs::Mending::not_ivf))]
fn not_ivf(file: &[u8]) -> bool
    ensures { result ≡ not_ivf file.now }
{
    file.len() < 32 || 2147483647 < file.len() || !is_marked(file) || read2(file, 6) != 32
}

// An output as long as the file has room for whatever is kept.
fn no_room(file: &[u8], room: usize) -> bool
    requires { Sized file.now }
    ensures { result ≡ no_room file.now room }
{
    if file.len() <= room {
        return false;
    }
    let frames = pass(file, Frames { end: 32, count: 0 }, file.len());
    room < frames.end
}

pub fn mend(file: &[u8], out: &mut [u8]) -> Result<Mended, Refusal>
    ensures { Mends file.now out.old (mended_told result) out.new }
{
    if not_ivf(file) {
        return Err(Refusal::Recording);
    }
    if no_room(file, out.len()) {
        return Err(Refusal::Room);
    }
    let frames = write_mended(file, out);
    Ok(Mended {
        old_count: u64::from(read4(file, 24)),
        new_count: frames.count as u64,
        dropped: (file.len() - frames.end) as u64,
    })
}
