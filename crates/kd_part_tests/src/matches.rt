//! Rules: what they admit, and when they are taken and removed.

ghost use Rattle.std.specs.Prelude.{IsTrue};
ghost use Rattle.kd_match.specs.Rules.{has_filter};
ghost use Rattle.kd_match.specs.Told.{subject_told};

use crate::script::{Part, number, play};
use kd_bloom::{Bits, Mask, Param};
use kd_match::{Condition, Matches, Subject};
use kd_types::{ConnId, Cookie, OwnerChange, Refusal, Text};
use std::alloc::Global;
use std::test::Fail;

fn no_rules(alloc: Global, size: u32) -> Result<Matches, Fail> {
    let param = Param::of(size, 3).ok_or("the size is in range")?;
    Ok(Matches::make(alloc, param)?)
}

fn id_of(text: &str) -> Result<ConnId, Fail> {
    Ok(ConnId(number(text)?))
}

/// The bytes of words with a comma between them, the lowest byte of each first.
fn bytes_of(alloc: Global, text: &str) -> Result<Vec<u8>, Fail> {
    let mut bytes = Vec::new(alloc);
    for word in text.split(',') {
        bytes.extend_from_slice(&number(word)?.to_le_bytes())?;
    }
    Ok(bytes)
}

fn mask_of(alloc: Global, text: &str) -> Result<Condition, Fail> {
    let param = Param::of(8, 3).ok_or("8 bytes and 3 hashes are in range")?;
    Ok(Condition::Mask(Mask::of(alloc, &bytes_of(alloc, text)?, param)?))
}

/// The owners before and after, and the name.
fn change_of(alloc: Global, text: &str) -> Result<OwnerChange, Fail> {
    let mut parts = text.split(':');
    let old = id_of(parts.next().unwrap_or(""))?;
    let new = id_of(parts.next().unwrap_or(""))?;
    let name = Text::of(alloc, parts.next().unwrap_or("").as_bytes())?;
    Ok(OwnerChange { name, old, new })
}

fn change_condition(alloc: Global, kind: &str, text: &str) -> Result<Condition, Fail> {
    let OwnerChange { name, old, new } = change_of(alloc, text)?;
    match kind {
        "name_add" => Ok(Condition::NameAdd { old, new, name }),
        "name_remove" => Ok(Condition::NameRemove { old, new, name }),
        "name_change" => Ok(Condition::NameChange { old, new, name }),
        _ => Err("no such condition")?,
    }
}

fn condition_of(alloc: Global, text: &str) -> Result<Condition, Fail> {
    let (kind, rest) = text.split_once(':').ok_or("a condition without a colon")?;
    match kind {
        "mask" => mask_of(alloc, rest),
        "name" => Ok(Condition::Name {
            name: Text::of(alloc, rest.as_bytes())?,
        }),
        "id" => Ok(Condition::Id { id: id_of(rest)? }),
        "id_add" => Ok(Condition::IdAdd { id: id_of(rest)? }),
        "id_remove" => Ok(Condition::IdRemove { id: id_of(rest)? }),
        _ => change_condition(alloc, kind, rest),
    }
}

/// The conditions behind a connection and a cookie; `N*CONDITION` is one N times.
fn conditions_of(alloc: Global, text: &str) -> Result<Vec<Condition>, Fail> {
    let mut conditions = Vec::new(alloc);
    for part in text.split_whitespace().skip(2) {
        let (count, condition) = part.split_once('*').unwrap_or(("1", part));
        for _ in 0..number(count)? {
            conditions.push(condition_of(alloc, condition)?)?;
        }
    }
    Ok(conditions)
}

/// The connections 1 to 8 that are shown a message or a notice.
fn shown(alloc: Global, matches: &Matches, subject: &Subject) -> Result<String, Fail>
    requires filter { IsTrue (has_filter matches.now.size (subject_told subject.now)) }
{
    let mut ids = String::new(alloc);
    'ids: for id in 1..9u64 {
        if matches.admits(ConnId(id), subject) {
            ids.push_str(format!(in alloc; " {id}")?.as_str())?;
        }
    }
    Ok(ids)
}

/// Whom a message of connection 7 or a notice is shown. Each call looks at its own part of what it
/// is handed.
fn asked(
    alloc: Global,
    matches: &Matches,
    call: &str,
    sent: (&Bits, u64, &[Text]),
    id: ConnId,
    change: &OwnerChange,
) -> Result<String, Fail> {
    let (filter, generation, names) = sent;
    if !matches.fits(filter) {
        return Err("the filter has the bus's size")?;
    }
    let source = ConnId(7);
    let subject = match call {
        "message" => Subject::Message {
            source,
            names,
            filter,
            generation,
        },
        "id_add" => Subject::IdAdd { id },
        "id_remove" => Subject::IdRemove { id },
        "name_add" => Subject::NameAdd { change },
        "name_remove" => Subject::NameRemove { change },
        _ => Subject::NameChange { change },
    };
    shown(alloc, matches, &subject)
}

/// Whom a message is shown: its filter's word, its generation, and the sender's names.
fn message(alloc: Global, matches: &Matches, text: &str) -> Result<String, Fail> {
    let mut words = text.split_whitespace();
    let filter = Bits::of(alloc, &bytes_of(alloc, words.next().unwrap_or(""))?)?;
    let generation = number(words.next().unwrap_or("0"))?;
    let mut names = Vec::new(alloc);
    for name in words {
        names.push(Text::of(alloc, name.as_bytes())?)?;
    }
    let change = change_of(alloc, "0:0:")?;
    asked(
        alloc,
        matches,
        "message",
        (&filter, generation, &names),
        ConnId(0),
        &change,
    )
}

/// Whom a notice is shown: the id, or the owners and the name.
fn notice(alloc: Global, matches: &Matches, call: &str, text: &str) -> Result<String, Fail> {
    let is_of_id = call == "id_add" || call == "id_remove";
    let id = id_of(if is_of_id { text } else { "0" })?;
    let change = change_of(alloc, if is_of_id { "0:0:" } else { text })?;
    let filter = Bits::of(alloc, &[0; 8])?;
    asked(alloc, matches, call, (&filter, 0, &[]), id, &change)
}

/// The connection at the front of a text.
fn id_in(text: &str) -> Result<ConnId, Fail> {
    id_of(text.split_whitespace().next().unwrap_or(""))
}

/// The cookie behind the connection.
fn cookie_in(text: &str) -> Result<Cookie, Fail> {
    Ok(Cookie(number(text.split_whitespace().nth(1).unwrap_or(""))?))
}

fn add(matches: &mut Matches, alloc: Global, text: &str) -> Result<Result<(), Refusal>, Fail> {
    let (id, cookie) = (id_in(text)?, cookie_in(text)?);
    let conditions = conditions_of(alloc, text)?;
    if matches.is_full() {
        return Err("the table is full")?;
    }
    Ok(matches.add(id, cookie, conditions, false))
}

/// Adds a rule in place of the connection's rules with its cookie.
#[tactic(auto, using(kd_match::proofs::Kept::has_room))]
fn replace(matches: &mut Matches, alloc: Global, text: &str) -> Result<Result<(), Refusal>, Fail> {
    let (id, cookie) = (id_in(text)?, cookie_in(text)?);
    let conditions = conditions_of(alloc, text)?;
    if matches.is_full() {
        return Err("the table is full")?;
    }
    Ok(matches.add(id, cookie, conditions, true))
}

/// As many rules without conditions as are told, with the cookies from 0 on.
fn fill(matches: &mut Matches, alloc: Global, text: &str) -> Result<(), Fail> {
    for cookie in 0..number(text)? {
        let line = format!(in alloc; "1 {cookie}")?;
        add(matches, alloc, line.as_str())??;
    }
    Ok(())
}

/// Where the call changes rules, its answer.
fn change(
    matches: &mut Matches,
    alloc: Global,
    call: &str,
    rest: &str,
) -> Result<Result<(), Refusal>, Fail> {
    match call {
        "add" => add(matches, alloc, rest),
        "replace" => replace(matches, alloc, rest),
        "fill" => Ok(Ok(fill(matches, alloc, rest)?)),
        "remove" => {
            let (id, cookie) = (id_in(rest)?, cookie_in(rest)?);
            Ok(matches.remove(id, cookie))
        }
        _ => {
            matches.drop_conn(id_of(rest)?);
            Ok(Ok(()))
        }
    }
}

impl Part for Matches {
    fn act(&mut self, alloc: Global, line: &str) -> Result<String, Fail> {
        let (call, rest) = line.split_once(' ').ok_or("a call without words")?;
        match call {
            "add" | "replace" | "fill" | "remove" | "drop" => {
                Ok(format!(in alloc; "{:?}", change(self, alloc, call, rest)?)?)
            }
            "message" => message(alloc, self, rest),
            _ => notice(alloc, self, call, rest),
        }
    }
}

/// Each script begins with no rules. What the connections 1 to 8 are shown stands behind the arrow.
const SCRIPTS: [&str; 7] = [
    // A condition holds of its own kind alone.
    "\
add 1 0 mask:4 -> Ok(())
add 2 0 name:a.b -> Ok(())
add 3 0 id:7 -> Ok(())
add 4 0 id_add:7 -> Ok(())
add 5 0 id_remove:7 -> Ok(())
add 6 0 name_add:3:4:a.b -> Ok(())
add 7 0 name_remove:3:4:a.b -> Ok(())
add 8 0 name_change:3:4:a.b -> Ok(())
message 6 0 a.b ->  1 2 3
id_add 7 ->  4
id_remove 7 ->  5
name_add 3:4:a.b ->  6
name_remove 3:4:a.b ->  7
name_change 3:4:a.b ->  8",
    // All ones fit any id, and an empty name asks for some name.
    "\
add 1 0 id_add:any -> Ok(())
add 2 0 name_add:0:any: -> Ok(())
add 3 0 name: -> Ok(())
add 4 0 name:a.b -> Ok(())
add 5 0 id:any -> Ok(())
id_add 5 ->  1
name_add 0:9:c.d ->  2
name_add 5:9:c.d
message 0 0 ->  5
message 0 0 a.c ->  3 5
message 0 0 a.c a.b ->  3 4 5",
    // A rule holds where all its conditions do; a filter meets the mask of its generation, or the last.
    "\
add 1 0 mask:4,5 id:7 -> Ok(())
add 2 0 -> Ok(())
add 3 0 id:8 -> Ok(())
add 4 0 mask:0x8000040040000000 -> Ok(())
add 5 0 mask:0x8000040040000000,0x8000040840000000 -> Ok(())
message 6 0 ->  1 2
message 6 3 ->  2
message 0x8000040040000000 0 ->  2 4 5
message 0x8000040040000000 1 ->  2 4
message 0x8000040840000000 7 ->  2 4 5
name_add 0:4:a.b ->  2",
    // The 64 rules of a connection are counted after those replaced.
    "\
fill 62 -> Ok(())
add 1 0 -> Ok(())
add 1 0 -> Ok(())
add 1 62 -> Err(TooMany { limit: 64 })
add 2 0 -> Ok(())
replace 1 62 -> Err(TooMany { limit: 64 })
replace 1 0 -> Ok(())
add 1 0 -> Ok(())
replace 1 62 -> Ok(())
replace 1 63 -> Err(TooMany { limit: 64 })",
    // A rule takes the place of those with its cookie.
    "\
add 1 5 -> Ok(())
add 1 5 id_add:any -> Ok(())
add 2 5 -> Ok(())
replace 1 5 id:7 -> Ok(())
message 0 0 ->  1 2
id_add 9 ->  2
replace 1 6 id_add:any -> Ok(())
message 0 0 ->  1 2
id_add 9 ->  1 2
replace 1 5 17*id_add:any -> Err(TooMany { limit: 16 })
message 0 0 ->  1 2",
    // A rule is refused for its first fault.
    "\
add 1 0 16*id_add:any -> Ok(())
add 1 0 17*id_add:any -> Err(TooMany { limit: 16 })
add 1 0 17*name:a -> Err(BadName)
add 1 0 name_add:1:2:a -> Err(BadName)",
    // Rules are removed by connection and cookie.
    "\
add 2 5 -> Ok(())
add 1 5 -> Ok(())
add 1 5 -> Ok(())
remove 3 5 -> Err(NoSuchMatch)
remove 1 4 -> Err(NoSuchMatch)
remove 1 5 -> Ok(())
message 0 0 ->  2
add 1 6 -> Ok(())
message 0 0 ->  1 2
drop 1 -> Ok(())
message 0 0 ->  2",
];

#[test]
fn rules_admit_messages_and_notices(rt: HostRuntime) -> Result<(), Fail> {
    for script in SCRIPTS {
        play(rt.alloc(), &mut no_rules(rt.alloc(), 8)?, script)?;
    }
    Ok(())
}

/// A mask of another size than the bus's filters is refused where it stands.
#[test]
fn a_mask_has_the_size_of_the_filters(rt: HostRuntime) -> Result<(), Fail> {
    let alloc = rt.alloc();
    let matches = no_rules(alloc, 16)?;
    let conditions = conditions_of(alloc, "1 0 16*id_add:any mask:0")?;
    let judged = matches.may_add(ConnId(1), Cookie(0), &conditions, false);
    assert_eq!(rt; judged, Err(Refusal::BloomSize));
    let conditions = conditions_of(alloc, "1 0 mask:0 name:a")?;
    let judged = matches.may_add(ConnId(1), Cookie(0), &conditions, false);
    assert_eq!(rt; judged, Err(Refusal::BadName));
    assert_eq!(rt;
        matches.may_remove(ConnId(1), Cookie(0)),
        Err(Refusal::NoSuchMatch)
    );
    Ok(())
}

#[test]
fn a_filter_that_lacks_a_bit_of_any_word_is_not_shown(rt: HostRuntime) -> Result<(), Fail> {
    let alloc = rt.alloc();
    let mut matches = no_rules(alloc, 72)?;
    let param = Param::of(72, 3).ok_or("72 bytes and 3 hashes are in range")?;
    assert!(rt; !matches.is_full());
    let nine_words = vec![in alloc; Condition::Mask(Mask::of(alloc, &[5; 72], param)?)]?;
    assert_eq!(rt;
        matches.add(ConnId(1), Cookie(0), nine_words, false),
        Ok(())
    );
    let change = change_of(alloc, "0:0:")?;
    for word in 0..9u8 {
        let mut bytes = [0xF5u8; 72];
        bytes[8 * usize::from(word)] = 0xF1;
        let filter = Bits::of(alloc, &bytes)?;
        let shown = asked(
            alloc,
            &matches,
            "message",
            (&filter, 0, &[]),
            ConnId(0),
            &change,
        )?;
        assert_eq!(rt; shown.as_str(), "");
    }
    Ok(())
}
