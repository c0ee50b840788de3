//! The words of a line.

ghost use Rattle.std.specs.Prelude.{◌≡◌, ◌<◌, ◌≤◌, [], length, take, IfSome, IfNone};
ghost use Rattle.kd_lines.specs.Making.{is_blank, says_nothing, line_length, IsOneLine};
ghost use Rattle.kd_lines.specs.declared.tokens.LineError.TheVariants.{OutOfMemory};

use std::alloc::{AllocError, AllocFailed, Global};

/// Why a line has no frame.
#[derive(Clone, Copy, Debug, PartialEq, Eq)]
pub(crate) enum LineError {
    /// A word stands where it may not, or one is wanting.
    Bad,
    /// Memory ran out.
    OutOfMemory,
}

impl From<AllocError> for LineError {
    ghost from_gives = { λ _ e. e ≡ OutOfMemory };

    fn from(_: AllocError) -> LineError {
        LineError::OutOfMemory
    }
}

impl<T: Drop> From<AllocFailed<T>> for LineError {
    ghost from_gives = { λ _ e. e ≡ OutOfMemory };

    fn from(_: AllocFailed<T>) -> LineError {
        LineError::OutOfMemory
    }
}

/// What stands between blanks.
#[derive(Clone, Copy, Debug)]
pub(crate) enum Token<'a> {
    /// A word, up to the next blank.
    Word(&'a [u8]),
    /// What stands between two quotes.
    Quoted(&'a [u8]),
}

/// Whether a byte stands between words.
fn is_blank(byte: u8) -> bool
    ensures { result ≡ is_blank byte }
{
    byte == b' ' || byte == b'\t' || byte == b'\n' || byte == b'\r'
}

/// Whether a line has no words, or its first one begins with `#`.
pub(crate) fn says_nothing(line: &[u8]) -> bool
    ensures { result ≡ says_nothing line.now }
{
    let mut rest = line;
    'blanks: while let [byte, behind @ ..] = rest {
        if !is_blank(*byte) {
            return *byte == b'#';
        }
        rest = behind;
    }
    true
}

/// How many bytes the first line has, with its newline.
fn first_line(bytes: &[u8]) -> usize
    ensures { result ≡ line_length bytes.now }
{
    let mut rest = bytes;
    let mut size = 0;
    'bytes: while let [byte, behind @ ..] = rest {
        size += 1;
        if *byte == b'\n' {
            return size;
        }
        rest = behind;
    }
    size
}

/// The same, where there are bytes.
pub(crate) fn line_size(bytes: &[u8]) -> Option<usize>
    ensures first { IfSome result (λ n. n ≡ line_length bytes.now) }
    ensures inside { IfSome result (λ n. n ≤ length bytes.now) }
    ensures some { IfSome result (λ n. 1 ≤ n) }
    ensures line { IfSome result (λ n. IsOneLine (take n bytes.now)) }
    ensures none { IfNone result (bytes.now ≡ []) }
{
    if bytes.is_empty() {
        return None;
    }
    Some(first_line(bytes))
}

/// The bytes behind the blanks at the front.
fn behind_blanks(bytes: &[u8]) -> &[u8]
    ensures { length result.now ≤ length bytes.now }
{
    let mut rest = bytes;
    'blanks: while let [byte, behind @ ..] = rest {
        if !is_blank(*byte) {
            return rest;
        }
        rest = behind;
    }
    rest
}

/// How many bytes stand before the first quote; all where there is none.
fn before_quote(bytes: &[u8]) -> usize
    ensures { result ≤ length bytes.now }
{
    let mut count = 0;
    'bytes: for byte in bytes {
        if *byte == b'"' {
            return count;
        }
        count += 1;
    }
    count
}

/// How many bytes stand before the first blank; all where there is none.
fn before_blank(bytes: &[u8]) -> usize
    ensures { result ≤ length bytes.now }
{
    let mut count = 0;
    'bytes: for byte in bytes {
        if is_blank(*byte) {
            return count;
        }
        count += 1;
    }
    count
}

/// The first token and the bytes behind it, where there is one. A quote that isn't closed is none.
fn first_token(bytes: &[u8]) -> Option<(Token<'_>, &[u8])>
    ensures { IfSome result (λ t. length t.1.now < length bytes.now) }
{
    let rest = behind_blanks(bytes);
    let [first, behind @ ..] = rest else {
        return None;
    };
    if *first == b'"' {
        let (text, after) = behind.split_at(before_quote(behind));
        let [_, after @ ..] = after else {
            return None;
        };
        return Some((Token::Quoted(text), after));
    }
    let (word, after) = rest.split_at(before_blank(behind) + 1);
    Some((Token::Word(word), after))
}

/// All tokens of a line.
pub(crate) fn tokens_of(alloc: Global, line: &[u8]) -> Result<Vec<Token<'_>>, LineError> {
    let mut tokens = Vec::new(alloc);
    let mut rest = line;
    'tokens: while let Some((token, behind)) = first_token(rest) {
        tokens.push(token)?;
        rest = behind;
    }
    if behind_blanks(rest).is_empty() {
        Ok(tokens)
    } else {
        Err(LineError::Bad)
    }
}

/// The value of a digit.
fn digit(byte: u8) -> Option<u8>
    ensures { IfSome result (λ d. d < 16) }
{
    match byte {
        b'0'..=b'9' => Some(byte - b'0'),
        b'a'..=b'f' => Some(byte - 87),
        _ => None,
    }
}

/// The byte that two digits say.
fn byte_of(high: u8, low: u8) -> Option<u8> {
    Some(16 * digit(high)? + digit(low)?)
}

/// The bytes that stand so within quotes: each `\x` and two digits are one byte.
pub(crate) fn unquoted(alloc: Global, text: &[u8]) -> Result<Vec<u8>, LineError> {
    let mut bytes = Vec::with_capacity(alloc, text.len())?;
    let mut rest = text;
    'bytes: while let [byte, behind @ ..] = rest {
        rest = behind;
        if *byte != b'\\' {
            bytes.push(*byte)?;
            continue;
        }
        let [b'x', high, low, after @ ..] = behind else {
            return Err(LineError::Bad);
        };
        let Some(byte) = byte_of(*high, *low) else {
            return Err(LineError::Bad);
        };
        bytes.push(byte)?;
        rest = after;
    }
    Ok(bytes)
}

/// The number that a word says: in decimal, with a sign where it is negative; `any` is all ones.
pub(crate) fn number_of(word: &[u8]) -> Option<u64> {
    if word == b"any".as_slice() {
        return Some(u64::MAX);
    }
    let text = std::str::from_utf8(word).ok()?;
    match text.parse::<u64>() {
        Ok(number) => Some(number),
        Err(_) => Some(text.parse::<i64>().ok()?.cast_unsigned()),
    }
}
