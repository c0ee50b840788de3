//! Well-known names.

ghost use Rattle.std.specs.Prelude.{◌≡◌};
ghost use Rattle.kd_name.specs.Names.{is_name};

use crate::element::element_count;

/// The most bytes of a name, as the D-Bus Specification has it.
pub const NAME_LIMIT: usize = 255;

/// Whether the text is a name: two or more elements with dots between them, in at most
/// [`NAME_LIMIT`] bytes. An element is one or more of `A-Z a-z 0-9 _ -` and does not begin with a
/// digit.
pub fn is_name(text: &[u8]) -> bool
    ensures { result ≡ is_name text.now }
{
    text.len() <= NAME_LIMIT && matches!(element_count(text), Some(count) if count >= 2)
}
