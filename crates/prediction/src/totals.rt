// Running totals of clipped samples, over as many macroblocks as a host likes.
ghost use Rattle.std.specs.Prelude.{◌≡◌};
ghost use Rattle.prediction.specs.Totals.{added, totals_told};

use numbers::Refusal;

#[derive(Clone, Copy, Debug, PartialEq, Eq)]
pub struct Totals {
    pub low: u64,
    pub high: u64,
}

// The totals with one macroblock's two added, unless either sum would leave 64 bits: then the host keeps what it has.
// Four numbers, as C hands them over (`threshowl_add_clipped`).
#[tactic(auto, unfolding(rfc6386::specs::Refusal::if_done))]
pub fn add_clipped(low: u64, high: u64, mb_low: u64, mb_high: u64) -> Result<Totals, Refusal>
    ensures { totals_told low high result ≡ added low high mb_low mb_high }
{
    let Some(low_sum) = low.checked_add(mb_low) else {
        return Err(Refusal::Totals);
    };
    let Some(high_sum) = high.checked_add(mb_high) else {
        return Err(Refusal::Totals);
    };
    Ok(Totals {
        low: low_sum,
        high: high_sum,
    })
}
