//! Patterns, and which names they cover.

ghost use Rattle.std.specs.Prelude.{◌≡◌, ◌↔◌, IsTrue, option_map};
ghost use Rattle.kd_name.specs.Patterns.{Covers, covers, is_pattern, is_wildcard, is_wildcard_of, parent};

use crate::element::is_element;
use crate::name::is_name;

/// What a wildcard ends in.
const STAR: &[u8] = b".*";

/// Whether the text is a wildcard: a name or a single element, followed by `.*`. The 255 bytes of a
/// name are those before the `.*`, and a single element has no limit of its own.
pub fn is_wildcard(text: &[u8]) -> bool
    ensures { result ≡ is_wildcard text.now }
{
    match text.strip_suffix(STAR) {
        Some(stem) => is_name(stem) || is_element(stem),
        None => false,
    }
}

/// Whether the text is a pattern: a name or a wildcard.
pub fn is_pattern(text: &[u8]) -> bool
    ensures { result ≡ is_pattern text.now }
{
    is_name(text) || is_wildcard(text)
}

/// What stands before the last dot, where one element follows that dot: with `.*` behind it, it is
/// the one wildcard that covers the text.
pub fn parent(name: &[u8]) -> Option<&[u8]>
    ensures { option_map (λ q. q.now) result ≡ parent name.now }
{
    let mut front = name;
    'back: while let Some((byte, before)) = front.split_last() {
        if *byte == b'.' {
            let (_, element) = name.split_at(front.len());
            return if is_element(element) {
                Some(before)
            } else {
                None
            };
        }
        front = before;
    }
    None
}

/// Whether the pattern covers the name: a pattern covers itself, and a wildcard each text that has
/// exactly one element in the place of its star.
pub fn covers(pattern: &[u8], name: &[u8]) -> bool
    ensures answer { result ≡ covers pattern.now name.now }
    ensures meaning { IsTrue result ↔ Covers pattern.now name.now }
{
    pattern == name || is_wildcard_of(pattern, name)
}

/// Whether the pattern is the one wildcard that covers the name.
fn is_wildcard_of(pattern: &[u8], name: &[u8]) -> bool
    ensures { result ≡ is_wildcard_of pattern.now name.now }
{
    let Some(parent) = parent(name) else {
        return false;
    };
    match pattern.strip_suffix(STAR) {
        Some(stem) => stem == parent,
        None => false,
    }
}
