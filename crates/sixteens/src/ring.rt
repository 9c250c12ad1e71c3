// Both passes of six taps over a window of 21 by 21 samples. Six rows of the first pass are kept at a time, and not all as in `strips::two`:
// all of them would take 672 bytes of stack in place of 192.
ghost use Rattle.std.specs.Prelude.{◌≡◌, ◌+◌, ◌<◌, ◌≤◌, length, get_or};
ghost use Rattle.rfc6386.specs.Picture.{halo_block};
ghost use Rattle.rfc6386.specs.Sums.{sum_to};
ghost use Rattle.rfc6386.specs.Clips.{halo_clips};
ghost use Rattle.steps.specs.Rows.{laid_twice, Low};
ghost use Rattle.steps.specs.Tally.{part, tally_of};
ghost use Rattle.steps.specs.Taps.{signed_taps};
ghost use Rattle.steps.specs.Window.{along};
ghost use Rattle.steps.specs.View.{view_list};
ghost use Rattle.sixteens.specs.Lanes.{Roomy, Added};
ghost use Rattle.sixteens.specs.Rolling.{Rolling, Lie, ring_step, ring_clip};

use rfc6386::FilterSet;
use steps::lines::first_line;
use steps::step::{Step, counted};
use steps::tables::taps_of;
use steps::taps::Taps;
use steps::view::View;
use steps::way::Way;

// Where the six rows of a window stand, the oldest first. By name and in no array: the theorems `ring_turned` and `ring_row` speak of them so.
#[derive(Clone, Copy)]
pub struct Ring {
    pub a: usize,
    pub b: usize,
    pub c: usize,
    pub d: usize,
    pub e: usize,
    pub f: usize,
}

// The oldest gives its place to the next.
fn turned(ring: Ring) -> Ring
    ensures { result ≡ record { a = ring.b; b = ring.c; c = ring.d; d = ring.e; e = ring.f; f = ring.a } }
{
    Ring {
        a: ring.b,
        b: ring.c,
        c: ring.d,
        d: ring.e,
        e: ring.f,
        f: ring.a,
    }
}

// A step down the window, in column c.
fn step_at(m: &[u16], ring: Ring, c: usize, t: Taps) -> Step
    requires lie { Lie (length m.now) ring }
    requires low { Low m.now }
    requires c_bound { c < 16 }
    ensures sample_value { result.sample ≡ ring_step (signed_taps t) m.now ring c }
    ensures part_value { result.part ≡ part (ring_clip (signed_taps t) m.now ring c) }
{
    counted(
        t,
        m[ring.a + c],
        m[ring.b + c],
        m[ring.c + c],
        m[ring.d + c],
        m[ring.e + c],
        m[ring.f + c],
    )
}

// A row of them. Its tally is kept in eight lanes, one for every eighth column: a single number, as that of `strips::row`, would have to be
// added up across a vector of the processor for each row.
#[tactic(auto, using(steps::proofs::Laws::Twofold::twice_all))]
fn ring_line(m: &[u16], ring: Ring, t: Taps, out: &mut [u8], to: usize, lanes: &mut [u16])
    requires lie { Lie (length m.now) ring }
    requires low { Low m.now }
    requires to_in_bounds { to + 16 ≤ length out.old }
    requires roomy { Roomy lanes.old }
    ensures out_after { out.new ≡ laid_twice out.old to 8 8 (ring_step (signed_taps t) m.now ring) (λ c. ring_step (signed_taps t) m.now ring (8 + c)) }
    ensures added { Added lanes.old (λ c. part (ring_clip (signed_taps t) m.now ring c) + part (ring_clip (signed_taps t) m.now ring (8 + c))) lanes.new }
{
    for c in 0..8 {
        let s = step_at(m, ring, c, t);
        let z = step_at(m, ring, 8 + c, t);
        out[to + c] = s.sample;
        out[to + 8 + c] = z.sample;
        lanes[c] += s.part + z.part;
    }
}

fn total(lanes: &[u16]) -> u32
    requires { length lanes.now ≡ 8 }
    ensures { result ≡ sum_to 8 (λ c. get_or lanes.now c 0) }
{
    let mut sum: u32 = 0;
    for lane in lanes {
        sum += *lane as u32;
    }
    sum
}

// The first five rows of the first pass, with room for a sixth.
fn first_five(halo: View<21>, t: Taps) -> [u16; 96]
    ensures { Rolling (along (signed_taps t) halo.entry.src.now halo.entry.window.at halo.entry.window.pitch) 0 5 result }
{
    let window = halo.window;
    let mut m = [0u16; 96];
    for r in 0..5 {
        first_line(
            halo.src,
            window.at + r * window.pitch,
            1,
            &mut m,
            r * 16,
            16,
            t,
        );
    }
    m
}

// Both passes of six taps, and in `tally` that of the block.
pub fn two(halo: View<21>, way: Way, tally: &mut u32) -> [u8; 256]
    requires le_my { 1 ≤ way.my }
    ensures value { result ≡ halo_block 16 FilterSet.Sixtap (view_list 21 halo.entry) way.mx way.my }
    ensures tally_after { tally.new ≡ tally_of (halo_clips 16 FilterSet.Sixtap (view_list 21 halo.entry) way.mx way.my) }
{
    let tx = taps_of(FilterSet::Sixtap, way.mx);
    let ty = taps_of(FilterSet::Sixtap, way.my);
    let mut m = first_five(halo, tx);
    let mut ring = Ring {
        a: 0,
        b: 16,
        c: 32,
        d: 48,
        e: 64,
        f: 80,
    };
    let mut out = [0u8; 256];
    let mut lanes = [0u16; 8];
    for r in 0..16 {
        first_line(
            halo.src,
            halo.window.at + (r + 5) * halo.window.pitch,
            1,
            &mut m,
            ring.f,
            16,
            tx,
        );
        ring_line(&m, ring, ty, &mut out, r * 16, &mut lanes);
        ring = turned(ring);
    }
    *tally = total(&lanes);
    out
}
