// Frames: read into planes padded to whole macroblocks, and written back.
ghost use Rattle.std.specs.Prelude.{◌≡◌, length, take};
ghost use Rattle.y4m_header.specs.Words.{same};
ghost use Rattle.y4m_frames.specs.Frames.{frame_mark, padded_frame, file_frame, frame_told, Reads, Writes};
ghost use Rattle.y4m_frames.specs.Inner.{put, FramePadding, FrameCropping};

use crate::planes::{Sizes, are_sizes, frame_length, padded_samples, sizes_of};
use crate::rows::{copy, crop_plane, pad_plane};
use numbers::Refusal;

fn marked(file: &[u8]) -> bool
    ensures { result ≡ same (take 6 file.now) frame_mark }
{
    file.starts_with(b"FRAME\n")
}

fn pad_frame(file: &[u8], s: Sizes, out: &mut [u8])
    requires { FramePadding (length file.now) s (length out.old) }
    ensures { out.new ≡ put out.old 0 (padded_frame file.now s) }
{
    let luma = s.luma;
    let chroma = s.chroma;
    let u = 6 + luma.height * luma.width;
    let v = u + chroma.height * chroma.width;
    let out_u = luma.high * luma.wide;
    let out_v = out_u + chroma.high * chroma.wide;
    pad_plane(file, 6, luma, out, 0);
    pad_plane(file, u, chroma, out, out_u);
    pad_plane(file, v, chroma, out, out_v);
}

fn crop_frame(frame: &[u8], s: Sizes, out: &mut [u8])
    requires { FrameCropping (length frame.now) s (length out.old) }
    ensures { out.new ≡ put out.old 0 (file_frame frame.now s) }
{
    let luma = s.luma;
    let chroma = s.chroma;
    let u = luma.high * luma.wide;
    let v = u + chroma.high * chroma.wide;
    let out_u = 6 + luma.height * luma.width;
    let out_v = out_u + chroma.height * chroma.width;
    copy(b"FRAME\n", 0, out, 0, 6);
    crop_plane(frame, 0, luma, out, 6);
    crop_plane(frame, u, chroma, out, out_u);
    crop_plane(frame, v, chroma, out, out_v);
}

// The bytes that are taken: 0 at the file's end.
pub fn read_frame(file: &[u8], width: usize, height: usize, out: &mut [u8]) -> Result<u64, Refusal>
    ensures { Reads file.now width height out.old (frame_told result) out.new }
{
    if !are_sizes(width, height) {
        return Err(Refusal::Size);
    }
    if file.is_empty() {
        return Ok(0);
    }
    if !marked(file) {
        return Err(Refusal::Mark);
    }
    let s = sizes_of(width, height);
    let n = frame_length(s);
    if file.len() < n {
        return Err(Refusal::Cut);
    }
    if out.len() < padded_samples(s) {
        return Err(Refusal::Room);
    }
    pad_frame(file, s, out);
    Ok(n as u64)
}

// The bytes that are written.
pub fn write_frame(
    frame: &[u8],
    width: usize,
    height: usize,
    out: &mut [u8],
) -> Result<u64, Refusal>
    ensures { Writes frame.now width height out.old (frame_told result) out.new }
{
    if !are_sizes(width, height) {
        return Err(Refusal::Size);
    }
    let s = sizes_of(width, height);
    if frame.len() < padded_samples(s) {
        return Err(Refusal::Cut);
    }
    let n = frame_length(s);
    if out.len() < n {
        return Err(Refusal::Room);
    }
    crop_frame(frame, s, out);
    Ok(n as u64)
}
