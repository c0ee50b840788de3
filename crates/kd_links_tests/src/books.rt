//! The linked book of slices: a worked case, and 10,000 turns beside the plain one.

use crate::draws::Draws;
use kd_links::Links;
use kd_model::{NoPlace, SLICES, SliceBook, SliceNo};
use kd_slices::Slices;
use std::test::Fail;

/// What is done to a book.
#[derive(Clone, Copy, Debug)]
enum Step {
    /// Places a slice of this many bytes.
    Place(u32),
    /// Gives the slice of this number back.
    GiveBack(u32),
}

/// What a step came to.
#[derive(Clone, Copy, Debug, PartialEq, Eq)]
enum Answer {
    /// The number and the offset of the new slice.
    Placed(u32, u32),
    /// Why there was no place.
    Refused(NoPlace),
    /// The slice was given back.
    GivenBack,
    /// No slice has the number, or no bytes were asked for.
    Nothing,
}

/// Places a slice of as many bytes, rounded down to a multiple of eight.
fn place<B: SliceBook>(book: &mut B, len: u32) -> Answer {
    let eights = len / 8;
    if eights == 0 {
        return Answer::Nothing;
    }
    match book.place(eights * 8) {
        Ok((number, offset)) => Answer::Placed(number.0, offset),
        Err(why) => Answer::Refused(why),
    }
}

/// Gives a slice back if its number is placed.
fn give_back<B: SliceBook>(book: &mut B, number: SliceNo) -> Answer {
    let placed = book.at(number).is_some();
    if placed {
        book.give_back(number);
        return Answer::GivenBack;
    }
    Answer::Nothing
}

fn act<B: SliceBook>(book: &mut B, step: Step) -> Answer {
    match step {
        Step::Place(len) => place(book, len),
        Step::GiveBack(number) => give_back(book, SliceNo(number)),
    }
}

/// Steps over 256 bytes with their answers.
const WORKED: [(Step, Answer); 12] = [
    (Step::Place(64), Answer::Placed(0, 0)),
    (Step::Place(64), Answer::Placed(1, 64)),
    (Step::Place(64), Answer::Placed(2, 128)),
    (Step::GiveBack(0), Answer::GivenBack),
    (Step::Place(64), Answer::Placed(0, 0)),
    (Step::GiveBack(1), Answer::GivenBack),
    (Step::Place(56), Answer::Placed(1, 64)),
    (Step::Place(8), Answer::Placed(3, 120)),
    (Step::Place(72), Answer::Refused(NoPlace::Full)),
    (Step::GiveBack(4), Answer::Nothing),
    (Step::GiveBack(2), Answer::GivenBack),
    (Step::Place(128), Answer::Placed(2, 128)),
];

#[test]
fn ranges_that_are_given_back_are_used_again(rt: HostRuntime) -> Result<(), Fail> {
    let mut linked = Links::make(rt.alloc(), 256)?;
    let mut plain = Slices::make(rt.alloc(), 256)?;
    for (step, answer) in WORKED {
        assert_eq!(rt; act(&mut linked, step), answer);
        assert_eq!(rt; act(&mut plain, step), answer);
    }
    Ok(())
}

#[test]
fn the_largest_gap_and_what_is_used_are_told(rt: HostRuntime) -> Result<(), Fail> {
    let mut book = Links::make(rt.alloc(), 256)?;
    for (step, _) in WORKED.iter().take(8) {
        act(&mut book, *step);
    }
    assert_eq!(rt; book.largest_gap(), 64);
    assert_eq!(rt; book.used(), 192);
    assert_eq!(rt; book.at(SliceNo(3)), Some((120, 8)));
    assert_eq!(rt; book.at(SliceNo(4)), None);
    Ok(())
}

/// How many slices a book has.
fn count<B: SliceBook>(book: &B) -> u64 {
    let mut count: u64 = 0;
    for number in 0..SLICES {
        if book.at(SliceNo(number)).is_some() {
            count = count.saturating_add(1);
        }
    }
    count
}

/// The number before which as many are placed, in rising order; the first that no slice has where
/// there are fewer.
fn number_at<B: SliceBook>(book: &B, position: u64) -> u32 {
    let mut left = position;
    for number in 0..SLICES {
        if book.at(SliceNo(number)).is_some() {
            if left == 0 {
                return number;
            }
            left -= 1;
        }
    }
    SLICES
}

/// A step that two draws come to: a slice of 8 to 128 bytes, or one of those that there are is
/// given back.
fn drawn_step<B: SliceBook>(book: &B, draws: &mut Draws) -> Step {
    let which = draws.draw();
    let draw = draws.draw();
    if which % 2 == 0 {
        return Step::Place(8 + 8 * (draw % 16) as u32);
    }
    let count = count(book);
    if count == 0 {
        return Step::GiveBack(SLICES);
    }
    Step::GiveBack(number_at(book, draw % count))
}

#[test]
fn both_books_answer_alike_at_ten_thousand_turns(rt: HostRuntime) -> Result<(), Fail> {
    let mut linked = Links::make(rt.alloc(), 4096)?;
    let mut plain = Slices::make(rt.alloc(), 4096)?;
    let mut draws = Draws::from_state(1);
    for _ in 0..10_000 {
        let step = drawn_step(&linked, &mut draws);
        assert_eq!(rt; act(&mut linked, step), act(&mut plain, step));
        assert_eq!(rt; linked.used(), plain.used());
        assert_eq!(rt; linked.largest_gap(), plain.largest_gap());
    }
    Ok(())
}
