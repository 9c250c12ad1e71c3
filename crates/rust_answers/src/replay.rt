// Goes through the file, record by record.
use crate::functions::{Function, length_of};
use crate::macroblocks::Picture;
use crate::planes::Plane;
use crate::tally::Tally;
use crate::{alone, macroblocks, planes};
use rfc6386::Sizes;
use shims::bytes::{byte_at, part, word};

// The first byte of a plane's record.
const PLANE: u8 = 1;

// Where the next record starts, how many came before it, the planes that stand, and what was found.
#[derive(Clone, Copy)]
pub struct State<'a> {
    pub at: usize,
    pub records: usize,
    pub y: Plane<'a>,
    pub u: Plane<'a>,
    pub v: Plane<'a>,
    pub tally: Tally,
}

fn start<'a>() -> State<'a> {
    let none = Plane {
        bytes: b"",
        stride: 0,
        w: 0,
        h: 0,
    };
    State {
        at: 0,
        records: 0,
        y: none,
        u: none,
        v: none,
        tally: Tally::nothing(),
    }
}

// The state after a record that ends at `end`.
fn after(s: State<'_>, end: usize) -> State<'_> {
    State {
        at: end,
        records: s.records.wrapping_add(1),
        ..s
    }
}

fn with_plane<'a>(s: State<'a>, which: u8, p: Plane<'a>) -> State<'a> {
    match which {
        0 => State { y: p, ..s },
        1 => State { u: p, ..s },
        _ => State { v: p, ..s },
    }
}

// A plane, whose sizes start at `from` and whose bytes follow them. The record ends where its head says, also where the file ends before that.
fn plane<'a>(file: &'a [u8], from: usize, s: State<'a>) -> State<'a> {
    let head = part(file, from, 9);
    let start = from.wrapping_add(9);
    let len = usize::from(word(part(head, 7, 2)));
    let p = Plane {
        bytes: part(file, start, len),
        stride: usize::from(word(part(head, 5, 2))),
        w: usize::from(word(part(head, 1, 2))),
        h: usize::from(word(part(head, 3, 2))),
    };
    after(with_plane(s, byte_at(head, 0), p), start.wrapping_add(len))
}

// The tally with the answers of a record.
fn held(function: Function, r: &[u8], s: State<'_>) -> Tally {
    if let Some(same) = alone::agrees(function, r) {
        return s.tally.with(function, same);
    }
    if let Some(same) = planes::agrees(function, s.y, r) {
        return s.tally.with(function, same);
    }
    let picture = Picture {
        y: s.y.bytes,
        u: s.u.bytes,
        v: s.v.bytes,
        sizes: Sizes {
            y_stride: s.y.stride,
            u_stride: s.u.stride,
            v_stride: s.v.stride,
            mb_cols: s.y.w / 16,
            mb_rows: s.y.h / 16,
        },
    };
    macroblocks::held(function, picture, r, s.tally)
}

// The state after the next record; none where the byte begins none, as that of the file's last record.
fn turn<'a>(file: &'a [u8], s: State<'a>) -> Option<State<'a>> {
    let kind = byte_at(file, s.at);
    let from = s.at.wrapping_add(1);
    if kind == PLANE {
        return Some(plane(file, from, s));
    }
    let function = Function::try_from(kind).ok()?;
    let length = length_of(function);
    let tally = held(function, part(file, from, length), s);
    Some(after(State { tally, ..s }, from.wrapping_add(length)))
}

// The state at the record that ends the file, or at the first byte that begins none. No file that fits has as many records as the loop has
// turns.
pub fn through(file: &[u8]) -> State<'_> {
    let mut s = start();
    for _ in 0..1000000 {
        let Some(next) = turn(file, s) else {
            break;
        };
        s = next;
    }
    s
}
