//! How far a number lies outside its limits.
ghost use Rattle.std.specs.Prelude.{◌≡◌};
ghost use Rattle.std.specs.Int.{saturate_signed, w64};
ghost use Rattle.terms.specs.Ticks.{excess as excess_of, Near};

/// How many ticks s lies below low or above high: 0 inside. What would not fit in 64 bits is held at their end.
pub fn excess(low: i64, high: i64, s: i64) -> i64
    ensures value { result ≡ saturate_signed w64 (excess_of low high s) }
    ensures near { Near low high s → result ≡ excess_of low high s }
{
    let under = low.saturating_sub(s);
    let above = s.saturating_sub(high);
    0i64.max(under.max(above))
}
