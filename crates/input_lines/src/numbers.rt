ghost use Rattle.std.specs.Prelude.{◌≡◌, min};
ghost use Rattle.input_lines.specs.Numbers.{numeral, numeral_of};

// So many digits always fit a `u32`.
const SAFE_DIGITS: usize = 9;

// The number that one to DIGITS digits write. More than nine are never read, since they need not fit.
#[tactic(auto, using(crate::proofs::Digits::digits_none, crate::proofs::Digits::digit_fits, crate::proofs::Digits::digit_stop, crate::proofs::Digits::digits_end))]
pub fn number_of<const DIGITS: usize>(text: &[u8]) -> Option<u32>
    ensures { result ≡ numeral_of (min DIGITS 9) text.now }
{
    if text.is_empty() || text.len() > DIGITS.min(SAFE_DIGITS) {
        return None;
    }
    let mut value = 0u32;
    for byte in text {
        value = 10 * value + char::from(*byte).to_digit(10)?;
    }
    Some(value)
}

// The number that one to seven digits write.
pub fn number(text: &[u8]) -> Option<u32>
    ensures { result ≡ numeral text.now }
{
    number_of::<7>(text)
}
