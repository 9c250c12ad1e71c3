// The header line of a file.
ghost use Rattle.std.specs.Prelude.{◌≡◌, cond, length};
ghost use Rattle.y4m_header.specs.Inner.{some_size, so_far, Sound, HeardAs, header_read};
ghost use Rattle.y4m_header.specs.Words.{words};
ghost use Rattle.y4m_header.specs.HeaderLine.{size, tell, told, line, ended, heading, header_of, header_told};

use crate::Header;
use numbers::Refusal;

// What the parameters tell so far. A size that is told is not 0. Not a ghost field: a loop that changes a struct with one has no invariant that
// names the struct.
#[derive(Clone, Copy)]
struct Parameters {
    width: Option<u64>,
    height: Option<u64>,
    colour: bool,
}

// A size.
// No `parse`, which takes a sign before the digits.
fn size(word: &[u8]) -> Option<u64>
    ensures { result ≡ some_size (size word.now) }
{
    if word.len() > 5 {
        return None;
    }
    let mut value: u64 = 0;
    for b in word {
        if !b.is_ascii_digit() {
            return None;
        }
        value = 10 * value + u64::from(*b - b'0');
    }
    if value < 1 || value > 16384 {
        return None;
    }
    Some(value)
}

// One parameter.
fn tell(told: Parameters, word: &[u8]) -> Option<Parameters>
    requires { Sound told }
    ensures { HeardAs (tell (so_far told) word.now) result }
{
    let (name, rest) = word.split_first()?;
    match *name {
        b'W' if told.width.is_none() => Some(Parameters {
            width: Some(size(rest)?),
            ..told
        }),
        b'H' if told.height.is_none() => Some(Parameters {
            height: Some(size(rest)?),
            ..told
        }),
        b'C' if !told.colour && rest == b"420jpeg".as_slice() => Some(Parameters {
            colour: true,
            ..told
        }),
        b'W' | b'H' | b'C' => None,
        _ => Some(told),
    }
}

// The words of a whole line.
fn tell_line(line: &[u8]) -> Option<Parameters>
    ensures { HeardAs (told (words line.now)) result }
{
    let mut words = line.split(|b| *b == b' ');
    if words.next()? != b"YUV4MPEG2".as_slice() {
        return None;
    }
    let mut told = Parameters {
        width: None,
        height: None,
        colour: false,
    };
    for word in words {
        told = tell(told, word)?;
    }
    Some(told)
}

// The sizes, where they are both told.
fn head(told: Parameters, n: u64) -> Option<Header>
    requires { Sound told }
    ensures { header_read result ≡ heading (so_far told) n }
{
    Some(Header {
        width: told.width?,
        height: told.height?,
        taken: n,
    })
}

// The length of the line, without its newline, which stands in the first 256 bytes.
fn line_length(file: &[u8]) -> Option<usize>
    ensures { result ≡ cond (ended file.now) (Some (length (line file.now))) None }
{
    let most = file.len().min(256);
    file[..most].iter().position(|b| *b == b'\n')
}

fn header(file: &[u8]) -> Option<Header>
    ensures { header_read result ≡ header_of file.now }
{
    let n = line_length(file)?;
    head(tell_line(&file[..n])?, n as u64 + 1)
}

pub fn read_header(file: &[u8]) -> Result<Header, Refusal>
    ensures { header_told result ≡ header_of file.now }
{
    header(file).ok_or(Refusal::Header)
}
