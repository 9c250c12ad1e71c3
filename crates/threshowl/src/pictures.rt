// Headers and frames of YUV4MPEG2 files, for C. A refused call leaves the output as it was, and sets the numbers that it reports to 0.
ghost use Rattle.std.specs.Prelude.{◌≡◌};
ghost use Rattle.y4m_frames.specs.Frames.{Reads, Writes, frame_told};
ghost use Rattle.y4m_header.specs.HeaderLine.{header_of};

use numbers::Refusal;
use y4m_frames::frames::{read_frame, write_frame};
use y4m_header::header_line::read_header;

#[unsafe(no_mangle)]
pub extern "C" fn threshowl_y4m_header(
    file: &[u8],
    width: &mut u64,
    height: &mut u64,
    taken: &mut u64,
) -> u32
    ensures { record { number = result; width = width.new; height = height.new; taken = taken.new } ≡ header_of file.now }
{
    match read_header(file) {
        Ok(h) => {
            *width = h.width;
            *height = h.height;
            *taken = h.taken;
            0
        }
        Err(refusal) => {
            *width = 0;
            *height = 0;
            *taken = 0;
            u32::from(refusal)
        }
    }
}

// Says the bytes taken or written through the pointer that C lends.
fn tell(taken: Result<u64, Refusal>, bytes: &mut u64) -> u32
    ensures { record { number = result; bytes = bytes.new } ≡ frame_told taken }
{
    match taken {
        Ok(n) => {
            *bytes = n;
            0
        }
        Err(refusal) => {
            *bytes = 0;
            u32::from(refusal)
        }
    }
}

#[unsafe(no_mangle)]
pub extern "C" fn threshowl_y4m_read_frame(
    file: &[u8],
    width: usize,
    height: usize,
    out: &mut [u8],
    taken: &mut u64,
) -> u32
    ensures { Reads file.now width height out.old (record { number = result; bytes = taken.new }) out.new }
{
    tell(read_frame(file, width, height, out), taken)
}

#[unsafe(no_mangle)]
pub extern "C" fn threshowl_y4m_write_frame(
    frame: &[u8],
    width: usize,
    height: usize,
    out: &mut [u8],
    written: &mut u64,
) -> u32
    ensures { Writes frame.now width height out.old (record { number = result; bytes = written.new }) out.new }
{
    tell(write_frame(frame, width, height, out), written)
}
