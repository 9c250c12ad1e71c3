// The two inverse transforms. Each goes down the columns, then along the rows; what the first pass leaves is kept in 32 bits.
ghost use Rattle.std.specs.Prelude.{◌≡◌, ◌<◌, ◌≤◌, ℕ, pos, nat_abs};
ghost use Rattle.residue.specs.Transform.{Kernel, wht, dct, transform, inverse_wht, inverse_dct};
ghost use Rattle.residue.specs.Inner.{points, Small, Bounded, in_column, eighths, Fits};

// Four numbers of a pass.
#[derive(Clone, Copy)]
pub struct Four(pub i32, pub i32, pub i32, pub i32);

// Four of the sixteen numbers of a block.
#[derive(Clone, Copy)]
pub struct Row(pub i16, pub i16, pub i16, pub i16);

// A transform of four numbers, of which none is larger than `most`.
trait Pass {
    ghost kernel: { Kernel };

    ghost most: { ℕ };

    fn of(q: Four) -> Four
        requires { Small most q.0 q.1 q.2 q.3 }
        ensures { result ≡ points kernel q.0 q.1 q.2 q.3 };
}

struct Wht;

impl Pass for Wht {
    ghost kernel = { wht };

    ghost most = { 65532 };

    fn of(q: Four) -> Four {
        let outer = q.0 + q.3;
        let inner = q.1 + q.2;
        let inner_rest = q.1 - q.2;
        let outer_rest = q.0 - q.3;
        Four(
            outer + inner,
            inner_rest + outer_rest,
            outer - inner,
            outer_rest - inner_rest,
        )
    }
}

struct Dct;

impl Pass for Dct {
    ghost kernel = { dct };

    ghost most = { 60000 };

    fn of(q: Four) -> Four {
        let Four(a, b, c, d) = q;
        let sum = a + c;
        let rest = a - c;
        let even = (b + ((b * 20091) >> 16)) + ((d * 35468) >> 16);
        let odd = ((b * 35468) >> 16) - (d + ((d * 20091) >> 16));
        Four(sum + even, rest + odd, rest - odd, sum - even)
    }
}

fn column(x: [i16; 16], j: usize) -> Four
    requires { j < 4 }
    ensures { result ≡ in_column x j }
{
    Four(
        x[j] as i32,
        x[4 + j] as i32,
        x[8 + j] as i32,
        x[12 + j] as i32,
    )
}

// Of each number with `half` added an eighth, rounded down.
fn eighths(q: Four, half: i32) -> Row
    requires small { Small 262128 q.0 q.1 q.2 q.3 }
    requires half_bound { (half ≡ pos (nat_abs half)) × (nat_abs half ≤ 4) }
    ensures { result ≡ eighths (nat_abs half) q }
{
    Row(
        ((q.0 + half) >> 3) as i16,
        ((q.1 + half) >> 3) as i16,
        ((q.2 + half) >> 3) as i16,
        ((q.3 + half) >> 3) as i16,
    )
}

// Down the columns, then along the rows.
fn inverse<P: Pass>(x: [i16; 16], half: i32) -> [i16; 16]
    requires fits { Fits P.kernel P.most x }
    requires half_bound { (half ≡ pos (nat_abs half)) × (nat_abs half ≤ 4) }
    ensures { result ≡ transform P.kernel (nat_abs half) x }
{
    let a = P::of(column(x, 0));
    let b = P::of(column(x, 1));
    let c = P::of(column(x, 2));
    let d = P::of(column(x, 3));
    let r = eighths(P::of(Four(a.0, b.0, c.0, d.0)), half);
    let s = eighths(P::of(Four(a.1, b.1, c.1, d.1)), half);
    let t = eighths(P::of(Four(a.2, b.2, c.2, d.2)), half);
    let u = eighths(P::of(Four(a.3, b.3, c.3, d.3)), half);
    [
        r.0, r.1, r.2, r.3, s.0, s.1, s.2, s.3, t.0, t.1, t.2, t.3, u.0, u.1, u.2, u.3,
    ]
}

pub fn inverse_wht_4x4(x: [i16; 16]) -> [i16; 16]
    requires { Bounded 0 16383 x }
    ensures { result ≡ inverse_wht x }
{
    inverse::<Wht>(x, 3)
}

pub fn inverse_dct_4x4(x: [i16; 16]) -> [i16; 16]
    requires { Bounded 1 4095 x }
    ensures { result ≡ inverse_dct x }
{
    // the proof knows the range of what is read
    let _first = x[0];
    inverse::<Dct>(x, 4)
}
