//! Labels of buses and endpoints.

ghost use Rattle.std.specs.Prelude.{◌≡◌};
ghost use Rattle.kd_model.specs.Words.{all_of};
ghost use Rattle.kd_name.specs.Names.{is_label, is_label_byte};

use crate::element::is_name_byte;

/// The most bytes of a label, a bus's or an endpoint's: it is to stay short enough for one line of
/// a configuration and for a table that is made with room for all of them.
pub const LABEL_LIMIT: usize = 64;

/// Whether the text is a label: 1 to [`LABEL_LIMIT`] bytes of `A-Z a-z 0-9 _ - .` in any order.
pub fn is_label(text: &[u8]) -> bool
    ensures { result ≡ is_label text.now }
{
    if text.is_empty() {
        return false;
    }
    if text.len() > LABEL_LIMIT {
        return false;
    }
    are_label_bytes(text)
}

fn are_label_bytes(bytes: &[u8]) -> bool
    ensures { result ≡ all_of is_label_byte bytes.now }
{
    bytes
        .iter()
        .all(|byte| is_name_byte(*byte) || *byte == b'.')
}
