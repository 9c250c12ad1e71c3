// A prediction finished. Its own number comes first, then 11; with the skip flag it is answered as it is. The two calls differ in what
// refuses and in Y2, not in a type or a constant: one body for both would take the two as closures, and be no shorter.
ghost use Rattle.std.specs.Prelude.{◌≡◌, length};
ghost use Rattle.rfc6386.specs.Answer.{prediction_told};
ghost use Rattle.residue.specs.Coefficients.{finished};
ghost use Rattle.residue.specs.Reconstruction.{whole_finished, split_finished};
ghost use Rattle.residue.specs.Inner.{Open};

use numbers::Refusal;
use residue::{finish_plane, seeded, split_refusal, whole_refusal};
use rfc6386::ReconstructedMb;

fn finish_mb(mut samples: ReconstructedMb, c: &[i16]) -> ReconstructedMb
    requires { (length c.now ≡ 384) × Open c.now 0 384 }
    ensures { result ≡ finished c.now samples }
{
    finish_plane(&mut samples.y, 0, 16, c, 0);
    finish_plane(&mut samples.u, 0, 8, c, 256);
    finish_plane(&mut samples.v, 0, 8, c, 320);
    samples
}

pub fn finish_whole(
    p: Result<ReconstructedMb, Refusal>,
    skip: bool,
    c: &[i16],
) -> Result<ReconstructedMb, Refusal>
    ensures { prediction_told result ≡ whole_finished skip c.now (prediction_told p) }
{
    let samples = p?;
    whole_refusal(skip, c)?;
    if skip {
        return Ok(samples);
    }
    Ok(finish_mb(samples, &seeded(c)))
}

pub fn finish_split(
    p: Result<ReconstructedMb, Refusal>,
    skip: bool,
    c: &[i16],
) -> Result<ReconstructedMb, Refusal>
    ensures { prediction_told result ≡ split_finished skip c.now (prediction_told p) }
{
    let predicted = p?;
    split_refusal(skip, c)?;
    if skip {
        return Ok(predicted);
    }
    Ok(finish_mb(predicted, c))
}
