// Filter codes: 0 is six-tap, 1 bilinear, and any other is refused 5.
use numbers::Refusal;
use refusals::code_refusal;
use rfc6386::FilterSet;

// Any other is taken for bilinear. `threshowl` has the same function, but it is a static library, which no crate can use.
pub fn set_of(filter: u8) -> FilterSet {
    match filter {
        0 => FilterSet::Sixtap,
        _ => FilterSet::Bilinear,
    }
}

// Any other is refused.
pub fn coded(filter: u8) -> Result<FilterSet, Refusal> {
    code_refusal(filter)?;
    Ok(set_of(filter))
}
