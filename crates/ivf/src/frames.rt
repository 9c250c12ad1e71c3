// The complete frames of a file.
ghost use Rattle.std.specs.Prelude.{◌≡◌, ◌≤◌, length};
ghost use Rattle.ivf.specs.Inner.{complete_length, Passed, Passes};

use crate::bytes::read4;

// Where some frames of a file end, and how many they are.
#[derive(Clone, Copy)]
pub struct Frames {
    pub end: usize,
    pub count: usize,
}

// The length of the complete frame at byte `at`.
fn complete_length(file: &[u8], at: usize) -> Option<usize>
    requires { at ≤ length file.now }
    ensures { result ≡ complete_length file.now at }
{
    let left = file.len() - at;
    if left < 12 {
        return None;
    }
    let n = 12 + read4(file, at) as usize;
    if left < n {
        return None;
    }
    Some(n)
}

// Goes on from frames that were passed, over the complete frames that begin before byte `stop`.
// A `while`: each step is as long as the frame says, so that no range gives the places.
pub fn pass(file: &[u8], passed: Frames, stop: usize) -> Frames
    requires { Passed file.now passed.end passed.count }
    ensures { Passes file.now passed.end stop result }
{
    let mut frames = passed;
    while frames.end < stop {
        let Some(n) = complete_length(file, frames.end) else {
            return frames;
        };
        frames.end += n;
        frames.count += 1;
    }
    frames
}
