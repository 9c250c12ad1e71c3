// Little-endian numbers in a list of bytes.
// A list is handed over whole with a place in it, as the definitions that say what is kept read it.
ghost use Rattle.std.specs.Prelude.{◌≡◌, ◌+◌, ◌≤◌, length};
ghost use Rattle.ivf.specs.Format.{number2, number4};

pub fn read2(b: &[u8], i: usize) -> u16
    requires { i + 2 ≤ length b.now }
    ensures { result ≡ number2 b.now i }
{
    u16::from_le_bytes([b[i], b[i + 1]])
}

pub fn read4(b: &[u8], i: usize) -> u32
    requires { i + 4 ≤ length b.now }
    ensures { result ≡ number4 b.now i }
{
    u32::from_le_bytes([b[i], b[i + 1], b[i + 2], b[i + 3]])
}
