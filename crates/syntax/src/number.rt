// The value of an integer's bytes.
ghost use Rattle.std.specs.Prelude.{◌≡◌, ◌^◌, ◌≤◌, MatchOption};
ghost use Rattle.grammar.specs.Measure.{digits_from, value_of, Fits};

// The number that the digits are, if it is one of 32 bits.
fn digits(word: &[u8]) -> Option<u32>
    ensures all_of_them { MatchOption result (2 ^ 32 ≤ digits_from 0 word.now) (λ n. n ≡ digits_from 0 word.now) }
{
    let mut n: u32 = 0;
    for b in word {
        let digit = u32::from(b.saturating_sub(b'0'));
        n = n.checked_mul(10)?.checked_add(digit)?;
    }
    Some(n)
}

// The value of digits with a `-` before them or without, if it is one of 32 bits.
pub fn value(word: &[u8]) -> Option<i32>
    ensures read { MatchOption result (Fits word.now → ⊥) (λ v. Fits word.now × (v ≡ value_of word.now)) }
{
    let value = match word.strip_prefix(b"-") {
        Some(word) => -i64::from(digits(word)?),
        None => i64::from(digits(word)?),
    };
    i32::try_from(value).ok()
}
