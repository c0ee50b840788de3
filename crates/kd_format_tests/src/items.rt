//! Items: a size, a kind, a body, and zeros up to a multiple of 8.

use crate::table::{bytes_of, halves, words_of};
use kd_item::{put_item, read_items};
use std::test::Fail;

#[test]
fn an_item_is_filled_up_with_zeros(rt: HostRuntime) -> Result<(), Fail> {
    let alloc = rt.alloc();
    let mut bytes = Vec::new(alloc);
    put_item(&mut bytes, 6, b"a.b")?;
    put_item(&mut bytes, 1, b"")?;
    assert!(rt; bytes == bytes_of(alloc, "19 6 'a.b 16 1")?);
    Ok(())
}

/// Words, and where the first item begins that breaks the format.
const LISTS: &str = "\
none:
none: 19 6 'a.b 16 1
0: 15 6 'a.b
0: 25 6 'a.b
0: 19
16: 16 1 19 6 0x0100000000622e61
24: 19 6 'a.b 18446744073709551615 1
";

#[test]
fn a_list_breaks_at_its_first_bad_item(rt: HostRuntime) -> Result<(), Fail> {
    for line in LISTS.lines() {
        let (place, words) = halves(line)?;
        let bytes = bytes_of(rt.alloc(), words)?;
        let at = read_items(&bytes)
            .err()
            .map_or(u64::MAX, |broken| broken.at);
        assert_eq!(rt;
            words_of(rt.alloc(), place)?.first(),
            Some(&at),
            "in {line}"
        );
    }
    Ok(())
}
