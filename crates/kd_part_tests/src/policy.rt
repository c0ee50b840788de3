//! Policy: who has which level on which names.

use kd_policy::{Entry, Owner, PolicyDb, Scope, Subject};
use kd_types::{ConnId, Level, Refusal, Text};
use std::alloc::Global;
use std::test::Fail;

const HOLDER: Owner = Owner::Conn(ConnId(3));

const OTHER: Owner = Owner::Conn(ConnId(7));

fn level_of(text: &str) -> Option<Level> {
    match text {
        "see" => Some(Level::See),
        "talk" => Some(Level::Talk),
        "own" => Some(Level::Own),
        _ => None,
    }
}

/// The world, or behind `u` or `g` the id of a user or a group.
fn subject_of(text: &str) -> Result<Subject, Fail> {
    if let Some(id) = text.strip_prefix('u') {
        return Ok(Subject::User(id.parse::<u32>()?));
    }
    if let Some(id) = text.strip_prefix('g') {
        return Ok(Subject::Group(id.parse::<u32>()?));
    }
    Ok(Subject::World)
}

/// The entry of a text: pattern, subject, level.
fn entry(alloc: Global, text: &str) -> Result<Entry, Fail> {
    let mut words = text.split_whitespace();
    let pattern = words.next().unwrap_or("");
    let subject = subject_of(words.next().unwrap_or(""))?;
    let level = level_of(words.next().unwrap_or("")).ok_or("an entry has a level")?;
    Ok(Entry {
        pattern: Text::of(alloc, pattern.as_bytes())?,
        subject,
        level,
    })
}

/// Entries, with a comma behind each.
fn entries(alloc: Global, text: &str) -> Result<Vec<Entry>, Fail> {
    let mut entries = Vec::new(alloc);
    for part in text.split_terminator(',') {
        entries.push(entry(alloc, part)?)?;
    }
    Ok(entries)
}

/// Whether each line's level is the one that the policy gives: a name, a user, a group, the level.
fn gives(policy: &PolicyDb, scope: Scope, lines: &str) -> Result<bool, Fail> {
    for line in lines.split_terminator(',') {
        let mut words = line.split_whitespace();
        let name = words.next().unwrap_or("");
        let uid = words.next().unwrap_or("").parse::<u32>()?;
        let gid = words.next().unwrap_or("").parse::<u32>()?;
        let level = level_of(words.next().unwrap_or(""));
        if policy.level(scope, name.as_bytes(), uid, gid) != level {
            return Ok(false);
        }
    }
    Ok(true)
}

/// The entries of a holder and of another, and the levels that they give on the bus.
const CASES: [(&str, &str, &str); 3] = [
    // A wildcard covers exactly one element.
    (
        "foo.bar.* world talk,",
        "",
        "foo.bar.baz 1 1 talk,foo.bar.q 1 1 talk,foo.bar.baz.baz 1 1 none,foo.bar 1 1 none,\
         foo.barbaz 1 1 none,foo 1 1 none,",
    ),
    // A name hides wildcards, whoever it is for.
    (
        "a.* world own,",
        "a.b u5 see,",
        "a.b 5 1 see,a.b 6 1 none,a.c 6 1 own,",
    ),
    // The greatest level for a user and his group counts.
    (
        "a.b world see,z.z world own,a.b u5 own,a.b g9 talk,",
        "",
        "a.b 5 9 own,a.b 9 9 talk,a.b 9 5 see,",
    ),
];

#[test]
fn entries_give_levels_on_names(rt: HostRuntime) -> Result<(), Fail> {
    let alloc = rt.alloc();
    for (holder, other, levels) in CASES {
        let mut policy = PolicyDb::make(alloc)?;
        assert!(rt; policy.put(HOLDER, entries(alloc, holder)?)?.is_empty());
        assert!(rt; policy.put(OTHER, entries(alloc, other)?)?.is_empty());
        assert!(rt; gives(&policy, Scope::Bus, levels)?, "{levels}");
    }
    Ok(())
}

#[test]
fn each_list_has_its_own_entries(rt: HostRuntime) -> Result<(), Fail> {
    let alloc = rt.alloc();
    let mut policy = PolicyDb::make(alloc)?;
    assert!(rt;
        policy
            .put(HOLDER, entries(alloc, "a.b world see,")?)
            .is_ok()
    );
    assert!(rt; policy.put(OTHER, entries(alloc, "a.b world own,")?).is_ok());
    assert!(rt;
        policy
            .put(Owner::Endpoint(2), entries(alloc, "a.b world talk,")?)
            .is_ok()
    );
    assert!(rt; gives(&policy, Scope::Bus, "a.b 1 1 own,")?);
    assert!(rt; gives(&policy, Scope::Endpoint(2), "a.b 1 1 talk,")?);
    assert!(rt; gives(&policy, Scope::Endpoint(1), "a.b 1 1 none,")?);
    policy.drop_owner(OTHER);
    assert!(rt; gives(&policy, Scope::Bus, "a.b 1 1 see,")?);
    let handed_back = policy.put(HOLDER, Vec::new(alloc))?;
    assert!(rt; handed_back == entries(alloc, "a.b world see,")?);
    assert!(rt; gives(&policy, Scope::Bus, "a.b 1 1 none,")?);
    Ok(())
}

#[test]
fn patterns_are_judged(rt: HostRuntime) -> Result<(), Fail> {
    let alloc = rt.alloc();
    let policy = PolicyDb::make(alloc)?;
    for (owner, text, answer) in [
        (HOLDER, "a.* world see,", Ok(())),
        (HOLDER, "* world see,", Err(Refusal::BadName)),
        (HOLDER, "a world see,", Err(Refusal::BadName)),
        (Owner::Endpoint(1), "a.b world see,", Ok(())),
        (Owner::Endpoint(1), "a.* world see,", Err(Refusal::BadFlags)),
        (Owner::Endpoint(1), "a.b. world see,", Err(Refusal::BadName)),
    ] {
        assert_eq!(rt; policy.may_put(owner, &entries(alloc, text)?), answer);
    }
    Ok(())
}

#[test]
fn an_owner_has_at_most_256_entries(rt: HostRuntime) -> Result<(), Fail> {
    let alloc = rt.alloc();
    let mut policy = PolicyDb::make(alloc)?;
    let mut many = Vec::new(alloc);
    for number in 0..=255u8 {
        let pattern = [b'x', b'.', b'a' + number % 16, b'a' + number / 16];
        many.push(Entry {
            pattern: Text::of(alloc, &pattern)?,
            subject: Subject::World,
            level: Level::See,
        })?;
    }
    assert_eq!(rt; policy.may_put(HOLDER, &many), Ok(()));
    assert!(rt; policy.put(HOLDER, many).is_ok());
    assert!(rt;
        gives(
            &policy,
            Scope::Bus,
            "x.aa 1 1 see,x.hg 1 1 see,x.pp 1 1 see,x.qa 1 1 none,"
        )?
    );
    let mut more = policy.put(HOLDER, Vec::new(alloc))?;
    more.push(entry(alloc, "x.more world see")?)?;
    assert_eq!(rt;
        policy.may_put(HOLDER, &more),
        Err(Refusal::TooMany { limit: 256 })
    );
    Ok(())
}
