// Predicted samples finished: the residue of each block added. A block of which the first number alone is not 0 takes one number for all its
// samples, and a block whose residue is 0 is left.
// A plane is a place in a list, since C's output is one list of all three; `Area` speaks of the whole list.
ghost use Rattle.std.specs.Prelude.{◌≡◌, ◌++◌, ◌+◌, ◌-◌, ◌*◌, ◌/◌, ◌%◌, ◌≤◌, length, get_or};
ghost use Rattle.residue.specs.Transform.{at, inverse_dct, summed};
ghost use Rattle.residue.specs.Coefficients.{block, residue_at, finished_plane};
ghost use Rattle.residue.specs.Inner.{Bounded, Open, Room, BlockArea, Area, piece};

use crate::adding::add_block;
use crate::blocks::part_of;
use crate::short::only_first;
use crate::spot::Spot;
use crate::transform::inverse_dct_4x4;

fn finish_block(d: &mut [u8], spot: Spot, b: [i16; 16])
    requires room { Room (length d.old) spot }
    requires bounded { Bounded 1 4095 b }
    ensures { BlockArea d.old d.new spot (λ r q. summed (get_or d.old (spot.i + (r * spot.w + q)) 0) (at (inverse_dct b) ((r - spot.y) * 4 + (q - spot.x)))) }
{
    let first = b[0];
    if only_first(b) {
        let v = (((first as i32) + 4) >> 3) as i16;
        if v != 0 {
            add_block(d, spot, [v; 16]);
        }
        return;
    }
    add_block(d, spot, inverse_dct_4x4(b));
}

// The blocks from row y on, whose coefficients start at `from`.
fn finish_row(d: &mut [u8], i: usize, w: usize, y: usize, c: &[i16], from: usize)
    requires w_value { (w % 4 ≡ 0) × (w ≤ 16) × (i + ((y + 3) * w + w) ≤ length d.old) }
    requires w_in_bounds { (from + 4 * w ≤ length c.now) × Open c.now from (4 * w) }
    ensures { Area d.old d.new i w y (y + 4) 0 w (λ r q. summed (get_or d.old (i + (r * w + q)) 0) (at (inverse_dct (block c.now (from + q / 4 * 16))) ((r - y) * 4 + q % 4))) }
{
    for k in 0..w / 4 {
        let x = 4 * k;
        finish_block(d, Spot { i, w, y, x }, part_of(c, from + 4 * x));
    }
}

// A plane of w by w samples that starts at i.
pub fn finish_plane(d: &mut [u8], i: usize, w: usize, c: &[i16], from: usize)
    requires w_value { (w % 4 ≡ 0) × (w ≤ 16) × (i + w * w ≤ length d.old) }
    requires w_in_bounds { (from + w * w ≤ length c.now) × Open c.now from (w * w) }
    ensures { Area d.old d.new i w 0 w 0 w (λ r q. summed (get_or d.old (i + (r * w + q)) 0) (residue_at w c.now from r q)) }
{
    for k in 0..w / 4 {
        let y = 4 * k;
        finish_row(d, i, w, y, c, from + y * w);
    }
}

// The 384 samples of a macroblock.
pub fn finish_samples(d: &mut [u8], c: &[i16])
    requires d_len { length d.old ≡ 384 }
    requires c_len { (length c.now ≡ 384) × Open c.now 0 384 }
    ensures { d.new ≡ finished_plane 16 c.now 0 (piece d.old 0 256) ++ (finished_plane 8 c.now 256 (piece d.old 256 64) ++ finished_plane 8 c.now 320 (piece d.old 320 64)) }
{
    finish_plane(d, 0, 16, c, 0);
    finish_plane(d, 256, 8, c, 256);
    finish_plane(d, 320, 8, c, 320);
}
