//! The bytes and the elements of names.

ghost use Rattle.std.specs.Prelude.{◌≡◌, Some, None, length, if◌then◌else◌};
ghost use Rattle.kd_model.specs.Words.{all_of};
ghost use Rattle.kd_name.specs.Names.{elements, is_digit, is_element, is_name_byte};

/// Whether the byte is a digit, with which no element begins.
pub(crate) fn is_digit(byte: u8) -> bool
    ensures { result ≡ is_digit byte }
{
    matches!(byte, b'0'..=b'9')
}

/// Whether elements may have the byte: a letter, a digit, `_` or `-`.
pub(crate) fn is_name_byte(byte: u8) -> bool
    ensures { result ≡ is_name_byte byte }
{
    matches!(byte, b'A'..=b'Z' | b'a'..=b'z' | b'0'..=b'9' | b'_' | b'-')
}

/// How many elements a text consists of; None where a piece between its dots is no element.
pub(crate) fn element_count(text: &[u8]) -> Option<usize>
    ensures { result ≡ (if all_of is_element (elements text.now)
        then Some (length (elements text.now)) else None) }
{
    let mut dots = 0;
    let mut is_begun = false;
    for &byte in text {
        if byte == b'.' {
            if !is_begun {
                return None;
            }
            dots += 1;
            is_begun = false;
        } else {
            if !is_name_byte(byte) {
                return None;
            }
            if !is_begun && is_digit(byte) {
                return None;
            }
            is_begun = true;
        }
    }
    if is_begun { Some(dots + 1) } else { None }
}

/// Whether the text is one element.
pub(crate) fn is_element(text: &[u8]) -> bool
    ensures { result ≡ is_element text.now }
{
    element_count(text) == Some(1)
}
