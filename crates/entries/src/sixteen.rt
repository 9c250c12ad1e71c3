// A lent list of vectors, read as sixteen.
ghost use Rattle.std.specs.Prelude.{◌≡◌, length};
ghost use Rattle.rfc6386.specs.Refusal.{count_refusal};
ghost use Rattle.entries.specs.Lists.{sixteen_of, list_told};

use numbers::Refusal;
use refusals::count_refusal;
use rfc6386::Mv;

#[tactic(auto, unfolding(crate::specs::Lists::sixteen_of, rfc6386::specs::Refusal::if_done))]
pub fn sixteen_mvs(mvs: &[Mv]) -> Result<[Mv; 16], Refusal>
    ensures { list_told result ≡ record { number = count_refusal 16 (length mvs.now); mvs = sixteen_of mvs.now } }
{
    count_refusal(16, mvs.len())?;
    let mut sixteen = [Mv { row: 0, col: 0 }; 16];
    sixteen.copy_from_slice(mvs);
    Ok(sixteen)
}
