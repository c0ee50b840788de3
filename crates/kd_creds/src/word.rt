//! Texts in pieces: the lines of a configuration, the words of a line.

ghost use Rattle.std.specs.Prelude.{◌≡◌, ◌==◌, ◌+◌, ◌<◌, ◌∷◌, length, map, position, IfOk, IfSome};
ghost use Rattle.std.specs.Str.{is_utf8};
ghost use Rattle.kd_creds.specs.Lines.{line_pieces, pieces_left, bytes_left, line_words, rights_of, is_path};

use std::alloc::{AllocError, Global};
use std::str;

/// The word of a socket whose callers have no rights of their own.
const PLAIN: &[u8] = b"plain";

/// The word of a socket whose callers are privileged.
const PRIVILEGED: &[u8] = b"privileged";

/// The longest path, in bytes: a socket's address holds little more.
const PATH: usize = 100;

/// The bytes before the first `mark`, and those behind it, where there is one.
pub(crate) fn cut_at(bytes: &[u8], mark: u8) -> (&[u8], Option<&[u8]>)
    ensures pieces { line_pieces mark bytes.now ≡ result.0.now ∷ pieces_left mark result.1 }
    ensures sizes { length result.0.now + bytes_left result.1 ≡ length bytes.now }
{
    match place_of(bytes, mark) {
        None => (bytes, None),
        Some(at) => {
            let (piece, behind) = bytes.split_at(at);
            (piece, Some(behind.split_at(1).1))
        }
    }
}

/// Where the first `mark` stands.
fn place_of(bytes: &[u8], mark: u8) -> Option<usize>
    ensures place { result ≡ position (λ c. c == mark) bytes.now }
    ensures inside { IfSome result (λ place. place < length bytes.now) }
{
    bytes.iter().position(|byte| *byte == mark)
}

/// The words of a line.
pub(crate) fn words(alloc: Global, line: &[u8]) -> Result<Vec<&[u8]>, AllocError>
    ensures { IfOk result (λ v. map (λ w. w.now) v.items ≡ line_words line.now) }
{
    line.split(|byte| *byte == b' ').collect(alloc)
}

/// Whether the callers of a socket are privileged.
pub(crate) fn rights(word: &[u8]) -> Option<bool>
    ensures { result ≡ rights_of word.now }
{
    if word == PLAIN {
        return Some(false);
    }
    if word == PRIVILEGED {
        return Some(true);
    }
    None
}

/// Whether a socket may stand at this path.
pub(crate) fn is_path(path: &[u8]) -> bool
    ensures { result ≡ is_path path.now }
{
    !path.is_empty() && path.len() <= PATH && is_text(path)
}

/// Whether the bytes are UTF-8.
#[tactic(auto, using(crate::proofs::Utf8::passes, crate::proofs::Utf8::fails))]
fn is_text(bytes: &[u8]) -> bool
    ensures { result ≡ is_utf8 bytes.now }
{
    match str::from_utf8(bytes) {
        Ok(_) => true,
        Err(_) => false,
    }
}
