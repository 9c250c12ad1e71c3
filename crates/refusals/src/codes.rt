// The tests of what comes beside the planes.
ghost use Rattle.std.specs.Prelude.{◌≡◌};
ghost use Rattle.numbers.specs.Outcome.{told};
ghost use Rattle.rfc6386.specs.Refusal.{code_refusal, count_refusal, room_refusal};

use numbers::Refusal;

// A filter's code is a number, as C hands it over.
pub fn code_refusal(filter: u8) -> Result<(), Refusal>
    ensures { told result ≡ code_refusal filter }
{
    if 1 < filter {
        return Err(Refusal::Code);
    }
    Ok(())
}

pub fn count_refusal(due: usize, count: usize) -> Result<(), Refusal>
    ensures { told result ≡ count_refusal due count }
{
    if count == due {
        return Ok(());
    }
    Err(Refusal::Vectors)
}

pub fn room_refusal(room: usize) -> Result<(), Refusal>
    ensures { told result ≡ room_refusal room }
{
    if room == 384 {
        return Ok(());
    }
    Err(Refusal::Room)
}
