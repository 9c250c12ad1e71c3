// Vectors as bytes, as C hands them over.
#![tactic(auto)]

ghost use Rattle.std.specs.Prelude.{◌≡◌};
ghost use Rattle.vector_bytes.specs.Bytes.{int16, vectors_of};

use rfc6386::Mv;

// A signed number from its two bytes, the low one first.
pub fn read_i16(low: u8, high: u8) -> i16
    ensures { result ≡ int16 low high }
{
    i16::from_le_bytes([low, high])
}

// Sixteen vectors from 64 bytes. Zeros from any other number of bytes, so that a call still has a prediction, whose number comes before that of
// the length.
pub fn mvs_of_bytes(b: &[u8]) -> [Mv; 16]
    ensures { result ≡ vectors_of b.now }
{
    let mut mvs = [Mv { row: 0, col: 0 }; 16];
    if b.len() != 64 {
        return mvs;
    }
    for i in 0..16 {
        let at = 4 * i;
        let row = read_i16(b[at], b[at + 1]);
        let col = read_i16(b[at + 2], b[at + 3]);
        mvs[i] = Mv { row, col };
    }
    mvs
}
