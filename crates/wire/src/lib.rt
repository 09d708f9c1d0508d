//! What programs exchange with outside programs: counts of two bytes, runs of bytes, and floats by their bits.
#![tactic(auto)]

ghost use Rattle.std.specs.Prelude.{◌≡◌, ℕ, ◌+◌, ◌*◌, ◌∷◌, ◌<◌, cond, length, take, drop, MatchOption};
ghost use Rattle.std.specs.Float.Ieee.{binary64, is_nan, to_bits};

/// The next two bytes as a number, the low one first. Where there are fewer, the bytes stay.
pub fn word(input: &mut &[u8]) -> Option<u16>
    ensures { MatchOption result
        ((length input.old.now < 2) × (input.new.now ≡ input.old.now))
        (λ w. (low : ℕ) × (high : ℕ) × (w ≡ low + 256 * high) × (input.old.now ≡ low ∷ high ∷ input.new.now)) }
{
    match *input {
        [low, high, rest @ ..] => {
            *input = rest;
            Some(u16::from_le_bytes([*low, *high]))
        }
        _ => None,
    }
}

/// The next `len` bytes or numbers, or those that are left.
pub fn run<'a, T>(input: &mut &'a [T], len: usize) -> &'a [T]
    ensures taken { result.now ≡ take len input.old.now }
    ensures left { input.new.now ≡ drop len input.old.now }
{
    input.split_off(..len.min(input.len())).unwrap_or_default()
}

/// The bits of a float, and 0 for one that is no number.
pub fn bits(x: f64) -> u64
    ensures { result ≡ cond (is_nan x) 0 (to_bits binary64 x) }
{
    if x.is_nan() { 0 } else { x.to_bits() }
}
