// The sum of prediction and residue, a 4x4 block at a time: its samples are taken out of the plane, added to in sixteen bits and put back, so
// that the compiler makes vector code of it.
ghost use Rattle.std.specs.Prelude.{◌≡◌, ◌+◌, ◌-◌, ◌*◌, ◌/◌, ◌%◌, ◌≤◌, length, get_or, nat_abs};
ghost use Rattle.rfc6386.specs.Raster.{tab};
ghost use Rattle.residue.specs.Transform.{at, summed};
ghost use Rattle.residue.specs.Inner.{Bounded, Room, BlockArea};

use crate::spot::Spot;

fn sum(p: u8, x: i16) -> u8
    requires { nat_abs x ≤ 32512 }
    ensures { result ≡ summed p x }
{
    ((p as i16) + x).clamp(0, 255) as u8
}

// A residue added to sixteen samples.
fn add_residue(p: [u8; 16], x: [i16; 16]) -> [u8; 16]
    requires { Bounded 0 32512 x }
    ensures { result ≡ tab 16 (λ k. summed (get_or p k 0) (at x k)) }
{
    let mut out = [0u8; 16];
    for k in 0..16 {
        out[k] = sum(p[k], x[k]);
    }
    out
}

// `Room` is asked by a clause: a type that held the samples beside the spot would be made for each block, and say it no shorter.
fn take_block(d: &[u8], spot: Spot) -> [u8; 16]
    requires { Room (length d.now) spot }
    ensures { result ≡ tab 16 (λ k. get_or d.now (spot.i + ((spot.y + k / 4) * spot.w + (spot.x + k % 4))) 0) }
{
    let mut p = [0u8; 16];
    for k in 0..16 {
        p[k] = d[spot.i + (spot.y + k / 4) * spot.w + (spot.x + k % 4)];
    }
    p
}

fn put_block(d: &mut [u8], spot: Spot, p: [u8; 16])
    requires { Room (length d.old) spot }
    ensures { BlockArea d.old d.new spot (λ r q. get_or p ((r - spot.y) * 4 + (q - spot.x)) 0) }
{
    for k in 0..16 {
        d[spot.i + (spot.y + k / 4) * spot.w + (spot.x + k % 4)] = p[k];
    }
}

pub fn add_block(d: &mut [u8], spot: Spot, z: [i16; 16])
    requires room { Room (length d.old) spot }
    requires bounded { Bounded 0 32512 z }
    ensures { BlockArea d.old d.new spot (λ r q. summed (get_or d.old (spot.i + (r * spot.w + q)) 0) (at z ((r - spot.y) * 4 + (q - spot.x)))) }
{
    let p = take_block(d, spot);
    put_block(d, spot, add_residue(p, z));
}
