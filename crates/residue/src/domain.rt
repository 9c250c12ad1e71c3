// Number 11: a count that is not due, or a coefficient beyond its range while the residue is to be added. Every coefficient is looked at, with
// no way out: the compiler makes vector code of it.
// The list is a slice, as C lends it: its length is tested here, and asked once it is.
ghost use Rattle.std.specs.Prelude.{◌≡◌, false, ◌↔◌, ◌≤◌, length};
ghost use Rattle.numbers.specs.Outcome.{told};
ghost use Rattle.residue.specs.Coefficients.{whole_beyond, whole_refusal, split_refusal};
ghost use Rattle.residue.specs.Inner.{Low, Open};

use numbers::Refusal;

// Whether any of c does not lie in -m .. m. They are counted: a loop with a way out at the first does not become vector code.
fn beyond(c: &[i16], m: u16) -> bool
    requires { length c.now ≤ 384 }
    ensures { (result ≡ false) ↔ Low c.now 0 (length c.now) m }
{
    let mut bad: u16 = 0;
    for z in c {
        bad += u16::from(m < z.unsigned_abs());
    }
    bad != 0
}

// Of the sixteen Y blocks, the first of each left out. Number 8 of each is looked at twice, so that both halves are of eight.
fn beyond_firsts(c: &[i16]) -> bool
    requires { length c.now ≡ 400 }
    ensures { (result ≡ false) ↔ Open c.now 16 256 }
{
    let mut bad = false;
    for b in 0..16 {
        let low = beyond(&c[16 * b + 17..16 * b + 25], 4095);
        let high = beyond(&c[16 * b + 24..16 * b + 32], 4095);
        bad = bad | low | high;
    }
    bad
}

// Where even the firsts lie in the range, as they do where they are not used, one test of all is enough.
fn whole_beyond(c: &[i16]) -> bool
    requires { length c.now ≡ 400 }
    ensures { result ≡ whole_beyond c.now }
{
    if beyond(&c[..16], 16383) {
        return true;
    }
    if !beyond(&c[16..], 4095) {
        return false;
    }
    beyond_firsts(c) || beyond(&c[272..], 4095)
}

// This one and `split_refusal` differ in the count and in the test, which asks for that count: a function of both that takes a test would be longer.
pub fn whole_refusal(skip: bool, c: &[i16]) -> Result<(), Refusal>
    ensures { told result ≡ whole_refusal skip c.now }
{
    if c.len() != 400 {
        return Err(Refusal::Domain);
    }
    if !skip && whole_beyond(c) {
        return Err(Refusal::Domain);
    }
    Ok(())
}

pub fn split_refusal(skip: bool, c: &[i16]) -> Result<(), Refusal>
    ensures { told result ≡ split_refusal skip c.now }
{
    if c.len() != 384 {
        return Err(Refusal::Domain);
    }
    if !skip && beyond(c, 4095) {
        return Err(Refusal::Domain);
    }
    Ok(())
}
