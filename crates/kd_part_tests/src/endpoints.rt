//! The endpoints of a bus.

use crate::script::{Part, play};
use kd_endpoint::Endpoints;
use kd_types::{Refusal, Text};
use std::alloc::Global;
use std::test::Fail;

#[test]
fn a_label_has_one_to_sixty_four_bytes(rt: HostRuntime) -> Result<(), Fail> {
    let longest = [b'x'; 64];
    let longer = [b'x'; 65];
    let cases: [(&[u8], Result<u8, Refusal>); 9] = [
        (b"", Err(Refusal::BadName)),
        (b"a/b", Err(Refusal::BadName)),
        (b"a b", Err(Refusal::BadName)),
        (b"bus", Err(Refusal::EndpointExists)),
        (b"buses", Ok(1)),
        (b".", Ok(1)),
        (b"1-a_B.c", Ok(1)),
        (&longest, Ok(1)),
        (&longer, Err(Refusal::BadName)),
    ];
    let endpoints = Endpoints::make(rt.alloc())?;
    for (label, answer) in &cases {
        assert_eq!(rt; endpoints.may_add(label), *answer);
    }
    Ok(())
}

impl Part for Endpoints {
    fn act(&mut self, alloc: Global, line: &str) -> Result<String, Fail> {
        let (call, label) = line.split_once(' ').ok_or("a call without a label")?;
        match call {
            "add" => {
                let label = Text::of(alloc, label.as_bytes())?;
                Ok(format!(in alloc; "{:?}", self.add(label))?)
            }
            "may_add" => Ok(format!(in alloc; "{:?}", self.may_add(label.as_bytes()))?),
            "find" => Ok(format!(in alloc; "{:?}", self.find(label.as_bytes()))?),
            _ => {
                self.remove(label.parse::<u8>()?);
                Ok(String::new(alloc))
            }
        }
    }
}

/// An endpoint takes the lowest free number, and eight stand beside the default one.
const NUMBERS: &str = "\
add ep1 -> Ok(1)
add ep2 -> Ok(2)
add ep1 -> Err(EndpointExists)
find ep1 -> Some(1)
find ep2 -> Some(2)
find ep -> None
remove 1
find ep1 -> None
add ep3 -> Ok(1)
add c -> Ok(3)
add d -> Ok(4)
add e -> Ok(5)
add f -> Ok(6)
add g -> Ok(7)
add h -> Ok(8)
add more -> Err(TooMany { limit: 8 })
remove 0
remove 9
find bus -> Some(0)
may_add more -> Err(TooMany { limit: 8 })
remove 8
may_add more -> Ok(8)";

#[test]
fn an_endpoint_takes_the_lowest_of_eight_numbers(rt: HostRuntime) -> Result<(), Fail> {
    play(rt.alloc(), &mut Endpoints::make(rt.alloc())?, NUMBERS)
}
