// The samples of a macroblock, written to a lent output.
// That is a slice, as C lends it, and so its length is asked.
ghost use Rattle.std.specs.Prelude.{◌≡◌, length};
ghost use Rattle.outputs.specs.Output.{flat};

use rfc6386::ReconstructedMb;

pub fn write_samples(out: &mut [u8], samples: ReconstructedMb)
    requires { length out.old ≡ 384 }
    ensures { out.new ≡ flat samples }
{
    out[..256].copy_from_slice(&samples.y);
    out[256..320].copy_from_slice(&samples.u);
    out[320..384].copy_from_slice(&samples.v);
}
