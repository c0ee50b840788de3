//! Writing an item.

ghost use Rattle.std.specs.Prelude.{◌≡◌, ◌+◌, ◌*◌, ◌-◌, ◌%◌, ◌≤◌, ◌++◌, length, vec_len, vec_capacity, replicate, OnOk, OnErr};
ghost use Rattle.kd_item.specs.Spelling.{padding, word, words, item_length, spelling};

use byteorder::{ByteOrder, LittleEndian};
use std::alloc::AllocError;

const ZEROS: [u8; 8] = [0; 8];

/// How many zeros follow so many bytes, up to the next multiple of 8.
pub fn padding(count: usize) -> usize
    ensures value { result ≡ padding count }
    ensures small { result ≤ 7 }
{
    (8 - count % 8) % 8
}

/// Adds bytes for which there is room.
pub fn put_bytes(out: &mut Vec<u8>, bytes: &[u8])
    requires { vec_len out.old + length bytes.now ≤ vec_capacity out.old }
    ensures items { out.new.items ≡ out.old.items ++ bytes.now }
    ensures len { vec_len out.new ≡ vec_len out.old + length bytes.now }
    ensures room { vec_capacity out.old ≤ vec_capacity out.new }
{
    out.extend_from_slice(bytes).unwrap();
}

/// Adds a word for which there is room.
#[tactic(auto, unfolding(crate::specs::Spelling::word))]
fn put_word(out: &mut Vec<u8>, number: u64)
    requires { vec_len out.old + 8 ≤ vec_capacity out.old }
    ensures items { out.new.items ≡ out.old.items ++ word number }
    ensures len { vec_len out.new ≡ vec_len out.old + 8 }
    ensures room { vec_capacity out.old ≤ vec_capacity out.new }
{
    let mut bytes = [0u8; 8];
    LittleEndian::write_u64(&mut bytes, number);
    put_bytes(out, &bytes);
}

/// Adds up to eight zeros for which there is room.
#[tactic(auto, using(crate::proofs::Zeros::zeros_of_eight))]
pub fn put_zeros(out: &mut Vec<u8>, count: usize)
    requires few { count ≤ 8 }
    requires room { vec_len out.old + count ≤ vec_capacity out.old }
    ensures items { out.new.items ≡ out.old.items ++ replicate count 0 }
    ensures len { vec_len out.new ≡ vec_len out.old + count }
    ensures room { vec_capacity out.old ≤ vec_capacity out.new }
{
    put_bytes(out, ZEROS.split_at(count).0);
}

/// Adds words for which there is room, the first one first.
pub fn put_words(out: &mut Vec<u8>, numbers: &[u64])
    requires { vec_len out.old + 8 * length numbers.now ≤ vec_capacity out.old }
    ensures items { out.new.items ≡ out.old.items ++ words numbers.now }
    ensures len { vec_len out.new ≡ vec_len out.old + 8 * length numbers.now }
    ensures room { vec_capacity out.old ≤ vec_capacity out.new }
{
    for number in numbers {
        put_word(out, *number);
    }
}

/// Adds an item whose body is these words and then these bytes, and its padding; there is room for
/// it.
pub fn put_entry(out: &mut Vec<u8>, kind: u64, numbers: &[u64], bytes: &[u8])
    requires few { length numbers.now ≤ 8 }
    requires room { vec_len out.old + item_length (8 * length numbers.now + length bytes.now)
        ≤ vec_capacity out.old }
    ensures items { out.new.items ≡ out.old.items
        ++ spelling (record { kind = kind; body = words numbers.now ++ bytes.now }) }
    ensures len { vec_len out.new
        ≡ vec_len out.old + item_length (8 * length numbers.now + length bytes.now) }
    ensures room { vec_capacity out.old ≤ vec_capacity out.new }
{
    let size = 16 + 8 * numbers.len() + bytes.len();
    put_words(out, &[size as u64, kind]);
    put_words(out, numbers);
    put_bytes(out, bytes);
    put_zeros(out, padding(size));
}

/// Appends an item and its padding.
pub fn put_item(out: &mut Vec<u8>, kind: u64, body: &[u8]) -> Result<(), AllocError>
    ensures ok { OnOk result (out.new.items
        ≡ out.old.items ++ spelling (record { kind = kind; body = body.now })) }
    ensures err { OnErr result (out.new.items ≡ out.old.items) }
{
    let size = 16 + body.len();
    let zeros = padding(size);
    out.reserve(size + zeros)?;
    put_word(out, size as u64);
    put_word(out, kind);
    put_bytes(out, body);
    put_zeros(out, zeros);
    Ok(())
}
