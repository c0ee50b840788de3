//! Buses that come into the book, are found there, and go.

use crate::{Book, Found};
use kd_types::{Refusal, Text};
use std::alloc::Global;
use std::test::Fail;

/// A book with a bus of the user 1000 for each name, in slots from 0 on, each of generation 1.
fn book_of(alloc: Global, names: &[&[u8]]) -> Result<Book, Fail> {
    let mut book = Book::make();
    for name in names {
        let slot = book.may_make(alloc, 1000, name)??;
        book.enter(slot, 1, Text::of(alloc, name)?);
    }
    Ok(book)
}

#[test]
fn buses_are_found_by_name_and_the_lowest_without(rt: HostRuntime) -> Result<(), Fail> {
    let mut book = book_of(rt.alloc(), &[b"1000-a", b"1000-b", b"1000-c"])?;
    let second = Found {
        slot: 1,
        generation: 1,
    };
    assert_eq!(rt; book.find(Some(b"1000-b")), Ok(second));
    assert_eq!(rt;
        book.find(None),
        Ok(Found {
            slot: 0,
            generation: 1
        })
    );
    assert_eq!(rt;
        book.find(Some(b"1000-d")),
        Err(Refusal::NoSuchBus { generation: 0 })
    );
    book.remove(0, 1);
    assert_eq!(rt; book.find(None), Ok(second));
    assert_eq!(rt;
        book.find(Some(b"1000-a")),
        Err(Refusal::NoSuchBus { generation: 0 })
    );
    assert_eq!(rt; book.may_make(rt.alloc(), 1000, b"1000-a")?, Ok(0));
    book.remove(1, 3);
    assert_eq!(rt; book.find(Some(b"1000-b")), Ok(second));
    Ok(())
}

#[test]
fn a_new_bus_is_refused_by_its_name_and_where_four_are(rt: HostRuntime) -> Result<(), Fail> {
    let alloc = rt.alloc();
    let three = book_of(alloc, &[b"1000-a", b"1000-b", b"1000-c"])?;
    let four = book_of(alloc, &[b"1000-a", b"1000-b", b"1000-c", b"1000-d"])?;
    assert_eq!(rt;
        three.may_make(alloc, 1000, b"1000/e")?,
        Err(Refusal::BadName)
    );
    assert_eq!(rt;
        three.may_make(alloc, 1000, b"1001-e")?,
        Err(Refusal::WrongPrefix)
    );
    assert_eq!(rt;
        three.may_make(alloc, 1000, b"1000-")?,
        Err(Refusal::WrongPrefix)
    );
    assert_eq!(rt;
        three.may_make(alloc, 1000, b"1000-b")?,
        Err(Refusal::BusExists)
    );
    assert_eq!(rt; three.may_make(alloc, 1000, b"1000-e")?, Ok(3));
    assert_eq!(rt;
        four.may_make(alloc, 1000, b"1000-b")?,
        Err(Refusal::BusExists)
    );
    assert_eq!(rt;
        four.may_make(alloc, 1000, b"1000-e")?,
        Err(Refusal::TooMany { limit: 4 })
    );
    assert_eq!(rt;
        four.find(None),
        Ok(Found {
            slot: 0,
            generation: 1
        })
    );
    Ok(())
}
