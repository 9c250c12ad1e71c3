// The planes of a frame: their sizes, in a file and padded.
ghost use Rattle.std.specs.Prelude.{◌≡◌, true, ◌&&◌};
ghost use Rattle.y4m_frames.specs.Frames.{is_size, frame_length, padded_samples};
ghost use Rattle.y4m_frames.specs.Inner.{Sound, SizesAre};

// A plane's sizes in samples: in a file, and padded.
#[derive(Clone, Copy)]
pub struct Plane {
    pub width: usize,
    pub height: usize,
    pub wide: usize,
    pub high: usize,
}

// Of a frame's planes. That they are sound is no ghost field: the definition `sizes` makes this record of every width and height.
#[derive(Clone, Copy)]
pub struct Sizes {
    pub luma: Plane,
    pub chroma: Plane,
}

pub fn are_sizes(w: usize, h: usize) -> bool
    ensures { result ≡ (is_size w && is_size h) }
{
    (1..=16384).contains(&w) && (1..=16384).contains(&h)
}

pub fn sizes_of(w: usize, h: usize) -> Sizes
    requires { (is_size w && is_size h) ≡ true }
    ensures { SizesAre w h result }
{
    let across = (w + 15) / 16;
    let down = (h + 15) / 16;
    let luma = Plane {
        width: w,
        height: h,
        wide: 16 * across,
        high: 16 * down,
    };
    let chroma = Plane {
        width: (w + 1) / 2,
        height: (h + 1) / 2,
        wide: 8 * across,
        high: 8 * down,
    };
    Sizes { luma, chroma }
}

// This and `padded_samples` add up other fields, as the definitions of their names do.
pub fn frame_length(s: Sizes) -> usize
    requires { Sound s }
    ensures { result ≡ frame_length s }
{
    let luma = s.luma;
    let chroma = s.chroma;
    let half = chroma.height * chroma.width;
    6 + (luma.height * luma.width + (half + half))
}

pub fn padded_samples(s: Sizes) -> usize
    requires { Sound s }
    ensures { result ≡ padded_samples s }
{
    let luma = s.luma;
    let chroma = s.chroma;
    let half = chroma.high * chroma.wide;
    luma.high * luma.wide + (half + half)
}
