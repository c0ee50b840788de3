//! Numbers, flags and bytes as they stand in a line. Each call appends, or memory is wanting.

ghost use Rattle.std.specs.Prelude.{◌≡◌, ◌++◌, ◌<◌, List, codes, decimal, OnOk};
ghost use Rattle.std.specs.Fmt.{signed_decimal};
ghost use Rattle.std.specs.List.{flat_map};
ghost use Rattle.kd_lines.specs.Marks.{hex_digit, is_plain, marked, text, named, field, some_field, signed_field, id_text, id_field, some_id_field, flag, flag_of, word_text, word_field, word_id, change_text};

use itoa::Buffer;
use std::alloc::AllocError;

/// Text as it stands.
pub(crate) fn put_text(out: &mut Vec<u8>, text: &str) -> Result<(), AllocError>
    ensures { OnOk result (out.new.items ≡ out.old.items ++ text.now) }
{
    out.extend_from_slice(text.as_bytes())
}

/// A number in decimal.
pub(crate) fn put_number(out: &mut Vec<u8>, number: u64) -> Result<(), AllocError>
    ensures { OnOk result (out.new.items ≡ out.old.items ++ decimal number) }
{
    let mut buffer = Buffer::new();
    out.extend_from_slice(buffer.format(number).as_bytes())
}

/// The same of a number that may be negative.
fn put_signed(out: &mut Vec<u8>, number: i64) -> Result<(), AllocError>
    ensures { OnOk result (out.new.items ≡ out.old.items ++ signed_decimal number) }
{
    let mut buffer = Buffer::new();
    out.extend_from_slice(buffer.format(number).as_bytes())
}

/// A blank, a name, and `=`.
fn put_name(out: &mut Vec<u8>, name: &str) -> Result<(), AllocError>
    ensures { OnOk result (out.new.items ≡ out.old.items ++ codes " " ++ name.now ++ codes "=") }
{
    put_text(out, " ")?;
    put_text(out, name)?;
    put_text(out, "=")
}

/// A field and its number.
#[tactic(auto, unfolding(crate::specs::Marks::field))]
pub(crate) fn put_field(out: &mut Vec<u8>, name: &str, number: u64) -> Result<(), AllocError>
    ensures { OnOk result (out.new.items ≡ out.old.items ++ field name.now number) }
{
    put_name(out, name)?;
    put_number(out, number)
}

/// A field that is left out where it is 0.
#[tactic(auto, unfolding(crate::specs::Marks::some_field))]
pub(crate) fn put_some_field(out: &mut Vec<u8>, name: &str, number: u64) -> Result<(), AllocError>
    ensures { OnOk result (out.new.items ≡ out.old.items ++ some_field name.now number) }
{
    if number == 0 {
        return Ok(());
    }
    put_field(out, name, number)
}

/// The same of a number that may be negative.
#[tactic(auto, unfolding(crate::specs::Marks::signed_field))]
pub(crate) fn put_signed_field(out: &mut Vec<u8>, name: &str, number: i64) -> Result<(), AllocError>
    ensures { OnOk result (out.new.items ≡ out.old.items ++ signed_field name.now number) }
{
    if number == 0 {
        return Ok(());
    }
    put_name(out, name)?;
    put_signed(out, number)
}

/// An id; all ones stand for any.
fn put_id(out: &mut Vec<u8>, id: u64) -> Result<(), AllocError>
    ensures { OnOk result (out.new.items ≡ out.old.items ++ id_text id) }
{
    if id == u64::MAX {
        return put_text(out, "any");
    }
    put_number(out, id)
}

/// A field and its id.
#[tactic(auto, unfolding(crate::specs::Marks::id_field))]
fn put_id_field(out: &mut Vec<u8>, name: &str, id: u64) -> Result<(), AllocError>
    ensures { OnOk result (out.new.items ≡ out.old.items ++ id_field name.now id) }
{
    put_name(out, name)?;
    put_id(out, id)
}

/// An id that is left out where it is 0.
#[tactic(auto, unfolding(crate::specs::Marks::some_id_field))]
pub(crate) fn put_some_id_field(out: &mut Vec<u8>, name: &str, id: u64) -> Result<(), AllocError>
    ensures { OnOk result (out.new.items ≡ out.old.items ++ some_id_field name.now id) }
{
    if id == 0 {
        return Ok(());
    }
    put_id_field(out, name, id)
}

/// A flag, where it is set.
#[tactic(auto, unfolding(crate::specs::Marks::flag))]
pub(crate) fn put_flag(out: &mut Vec<u8>, name: &str, is_set: bool) -> Result<(), AllocError>
    ensures { OnOk result (out.new.items ≡ out.old.items ++ flag name.now is_set) }
{
    if !is_set {
        return Ok(());
    }
    put_text(out, " +")?;
    put_text(out, name)
}

/// The flag of this bit of a word, where it is set.
#[tactic(auto, unfolding(crate::specs::Marks::flag_of))]
pub(crate) fn put_flag_of(
    out: &mut Vec<u8>,
    word: u64,
    name: &str,
    mask: u64,
) -> Result<(), AllocError>
    ensures { OnOk result (out.new.items ≡ out.old.items ++ flag_of word name.now mask) }
{
    put_flag(out, name, word & mask == mask)
}

/// The digit of a number below 16.
fn hex_digit(number: u8) -> u8
    requires { number < 16 }
    ensures { result ≡ hex_digit number }
{
    if number < 10 {
        b'0' + number
    } else {
        87 + number
    }
}

/// Whether a byte stands for itself within quotes.
fn is_plain(byte: u8) -> bool
    ensures { result ≡ is_plain byte }
{
    31 < byte && byte < 127 && byte != b'"' && byte != b'\\'
}

/// A byte within quotes: as it is, or as `\x` and two digits.
fn put_marked(out: &mut Vec<u8>, byte: u8) -> Result<(), AllocError>
    ensures { OnOk result (out.new.items ≡ out.old.items ++ marked byte) }
{
    if is_plain(byte) {
        return out.extend_from_slice(&[byte]);
    }
    out.extend_from_slice(&[b'\\', b'x', hex_digit(byte / 16), hex_digit(byte % 16)])
}

/// A blank, and bytes within quotes.
#[tactic(auto, unfolding(crate::specs::Marks::text))]
pub(crate) fn put_quoted(out: &mut Vec<u8>, bytes: &[u8]) -> Result<(), AllocError>
    ensures { OnOk result (out.new.items ≡ out.old.items ++ text bytes.now) }
{
    put_text(out, " \"")?;
    'bytes: for byte in bytes {
        put_marked(out, *byte)?;
    }
    put_text(out, "\"")
}

/// A word, and bytes within quotes.
#[tactic(auto, unfolding(crate::specs::Marks::word_text))]
pub(crate) fn put_word_text(out: &mut Vec<u8>, word: &str, bytes: &[u8]) -> Result<(), AllocError>
    ensures { OnOk result (out.new.items ≡ out.old.items ++ word_text word.now bytes.now) }
{
    put_text(out, word)?;
    put_quoted(out, bytes)
}

/// A word, and one field.
#[tactic(auto, unfolding(crate::specs::Marks::word_field))]
pub(crate) fn put_word_field(
    out: &mut Vec<u8>,
    word: &str,
    name: &str,
    number: u64,
) -> Result<(), AllocError>
    ensures { OnOk result (out.new.items ≡ out.old.items ++ word_field word.now name.now number) }
{
    put_text(out, word)?;
    put_field(out, name, number)
}

/// A word, and one id.
#[tactic(auto, unfolding(crate::specs::Marks::word_id))]
pub(crate) fn put_word_id(out: &mut Vec<u8>, word: &str, id: u64) -> Result<(), AllocError>
    ensures { OnOk result (out.new.items ≡ out.old.items ++ word_id word.now id) }
{
    put_text(out, word)?;
    put_id_field(out, "id", id)
}

/// A word, the old owner of a name and the new one, and the name.
#[tactic(auto, unfolding(crate::specs::Marks::change_text))]
pub(crate) fn put_change(
    out: &mut Vec<u8>,
    word: &str,
    old: u64,
    new: u64,
    name: &[u8],
) -> Result<(), AllocError>
    ensures { OnOk result (out.new.items ≡ out.old.items ++ change_text word.now old new name.now) }
{
    put_text(out, word)?;
    put_id_field(out, "old", old)?;
    put_id_field(out, "new", new)?;
    put_quoted(out, name)
}
