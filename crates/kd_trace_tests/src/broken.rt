//! Traces that are cut off, and traces of which one word is another.

use crate::table::{SELF, items_of, told};
use std::alloc::Global;
use std::test::Fail;

#[test]
fn a_trace_may_end_behind_each_answer_alone(rt: HostRuntime) -> Result<(), Fail> {
    let alloc = rt.alloc();
    let (bytes, places) = items_of(alloc, SELF)?;
    for (item, (start, end)) in places.iter().enumerate() {
        for length in *start..*end {
            let mut front = bytes.as_slice().to_vec(alloc)?;
            front.truncate(length);
            let text = told(alloc, &front)?;
            if item % 2 == 0 && length == *start {
                assert_eq!(rt; text.as_str(), "yes\n");
            } else {
                let broken = format!(in alloc; "kdbusd: bad trace at byte {start}")?;
                assert_eq!(rt; text, broken);
            }
        }
    }
    Ok(())
}

/// Whether the text tells no pair before that of an item, and of an answer's that pair alone; or
/// that the bytes break, and not before the item.
fn is_told_of(
    alloc: Global,
    text: &str,
    places: &[(usize, usize)],
    item: usize,
) -> Result<bool, Fail> {
    let broken = text.strip_prefix("kdbusd: bad trace at byte ");
    for (other, (start, _)) in places.iter().enumerate() {
        if let Some(place) = broken
            && other == item
        {
            return Ok(place.parse::<usize>()? >= *start);
        }
        let pair = other / 2;
        let may_be_told = if item % 2 == 0 {
            pair >= item / 2
        } else {
            pair == item / 2
        };
        if other % 2 == 0
            && may_be_told
            && text == format!(in alloc; "no {pair} {start}\n")?.as_str()
        {
            return Ok(true);
        }
    }
    Ok(false)
}

/// Words that change neither an answer nor the order: what the connection says of itself, and what
/// it asks of others, each without the other; and the sender's id in a message, which the bus
/// writes, whatever stands there.
const FREE: [usize; 3] = [64, 72, 344];

#[test]
fn a_word_that_is_another_is_told_at_its_pair_or_behind(rt: HostRuntime) -> Result<(), Fail> {
    let alloc = rt.alloc();
    let (bytes, places) = items_of(alloc, SELF)?;
    for (item, (start, end)) in places.iter().enumerate() {
        for at in (*start..*end).step_by(8) {
            let mut changed = bytes.as_slice().to_vec(alloc)?;
            if let Some(byte) = changed.get_mut(at) {
                *byte ^= 1;
            }
            let text = told(alloc, &changed)?;
            if FREE.contains(&at) {
                assert_eq!(rt; text.as_str(), "yes\n");
            } else {
                assert!(rt; is_told_of(alloc, &text, &places, item)?);
            }
        }
    }
    Ok(())
}
