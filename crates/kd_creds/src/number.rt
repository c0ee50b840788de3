//! Numbers, written in decimal digits.

ghost use Rattle.std.specs.Prelude.{◌≡◌, IsTrue};
ghost use Rattle.kd_types.specs.Words.{all_of};
ghost use Rattle.kd_name.specs.Names.{is_digit};
ghost use Rattle.kd_creds.specs.Numbers.{digits_value, digits_number, in_32_bits};

/// The longest number: as many digits as the greatest of 32 bits has.
const DIGITS: usize = 10;

/// The number that the word writes: one to ten digits, leading zeros allowed, of at most 32 bits.
#[tactic(auto, unfolding(crate::specs::Numbers::digits_number))]
pub(crate) fn number(word: &[u8]) -> Option<u32>
    ensures { result ≡ digits_number word.now }
{
    if word.is_empty() {
        return None;
    }
    if word.len() > DIGITS {
        return None;
    }
    if !are_digits(word) {
        return None;
    }
    value(word)
}

/// What the digits write, unless it is more than 32 bits hold.
fn value(digits: &[u8]) -> Option<u32>
    requires { IsTrue (all_of is_digit digits.now) }
    ensures { result ≡ in_32_bits (digits_value digits.now) }
{
    let mut value = 0u64;
    'digits: for digit in digits {
        value = value * 10 + u64::from(*digit - b'0');
        if value > u64::from(u32::MAX) {
            return None;
        }
    }
    Some(value as u32)
}

/// Whether each byte is a decimal digit.
fn are_digits(word: &[u8]) -> bool
    ensures { result ≡ all_of is_digit word.now }
{
    word.iter().all(|byte| is_digit(*byte))
}

/// Whether the byte is a decimal digit.
fn is_digit(byte: u8) -> bool
    ensures { result ≡ is_digit byte }
{
    byte >= b'0' && byte <= b'9'
}
