// A square of a macroblock's luma, made of whole 4x4 blocks: the whole, a quarter of it, or a quarter of that.
ghost use Rattle.std.specs.Prelude.{◌≡◌, ◌+◌, ◌*◌, ◌/◌, ◌≤◌};
ghost use Rattle.quarters.specs.Parts.{Square};
ghost use Rattle.quarters.specs.Props.{square_prop};

#[derive(Clone, Copy)]
pub struct Piece {
    pub x: usize,
    pub y: usize,
    pub side: usize,
    ghost square: { Square x y side } by { square_prop x y side },
}

impl Piece {
    // One of its quarters: the left or the right one, above or below.
    pub fn quarter(self, right: usize, below: usize) -> Piece
        requires more { self.side ≡ 4 → ⊥ }
        requires which { (right ≤ 1) × (below ≤ 1) }
        ensures x { result.x ≡ self.x + right * (self.side / 2) }
        ensures y { result.y ≡ self.y + below * (self.side / 2) }
        ensures side { result.side ≡ self.side / 2 }
    {
        let half = self.side / 2;
        Piece {
            x: self.x + right * half,
            y: self.y + below * half,
            side: half,
        }
    }
}
