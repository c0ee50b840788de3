//! Pools: where slices go, who is refused, and what is received.

use kd_pool::{Drained, Pool, RecvMode, Sealed};
use kd_types::{ConnId, Refusal, SliceNo};
use std::alloc::{AllocError, Global};
use std::str::SplitWhitespace;
use std::test::Fail;

/// The next number of a line, 0 where there is none.
fn number(words: &mut SplitWhitespace) -> Result<u32, Fail> {
    Ok(words.next().unwrap_or("0").parse::<u32>()?)
}

/// The next priority or limit of a line; None where there is none.
fn priority(words: &mut SplitWhitespace) -> Option<i64> {
    words.next().and_then(|text| text.parse::<i64>().ok())
}

/// An offer of a slice whose length is a positive multiple of 8.
fn offer(pool: &mut Pool, user: u32, len: u32) -> Result<u32, Refusal> {
    if len == 0 || len % 8 != 0 || pool.offered() >= 1_000_000 {
        return Err(Refusal::BadFlags);
    }
    Ok(pool.offer(user, len, ConnId(1))?.0)
}

/// A share of so many sealed bytes; None for no bytes.
fn share(alloc: Global, len: u32) -> Result<Option<Sealed>, AllocError> {
    if len == 0 {
        return Ok(None);
    }
    Ok(Some(Sealed::of(vec![in alloc; 3u8; len as usize]?)?))
}

/// Publishes a message of its number over and over into a slice, if that is reserved, with a share
/// of so many sealed bytes; tells its length.
fn publish(
    alloc: Global,
    pool: &mut Pool,
    number: u32,
    priority: i64,
    sealed: u32,
) -> Result<Option<u32>, AllocError> {
    let Some(len) = pool.reserved(SliceNo(number)) else {
        return Ok(None);
    };
    if pool.published() >= 1_000_000 {
        return Ok(None);
    }
    let message = vec![in alloc; (number % 256) as u8; len as usize]?;
    let share = share(alloc, sealed)?;
    pool.publish(SliceNo(number), &[], &message, share, priority);
    Ok(Some(len))
}

/// A notice of so many bytes, a positive multiple of 8.
fn post(alloc: Global, pool: &mut Pool, len: u32) -> Result<u32, Refusal> {
    let image = vec![in alloc; 9u8; len as usize]?;
    let is_long = image.is_empty() || image.len() % 8 != 0;
    if is_long || pool.published() >= 1_000_000 || pool.dropped() >= 1_000_000 {
        return Err(Refusal::BadFlags);
    }
    Ok(pool.post(&image)?.0)
}

/// Number, offset, length and missed messages of what is received.
fn receive(pool: &mut Pool, mode: RecvMode) -> Result<(u32, u32, u32, u64), Refusal> {
    if mode.peek && mode.drop_it {
        return Err(Refusal::BadFlags);
    }
    let got = pool.receive(mode)?;
    Ok((got.number.0, got.offset, got.length, got.dropped))
}

/// How many bytes of the slice, or of its share, are read, and which, where all are the same.
fn read(alloc: Global, pool: &Pool, number: u32, sealed: bool) -> Result<(usize, u8), Refusal> {
    let bytes = pool.read(alloc, SliceNo(number), sealed)?;
    let first = bytes.first().copied().unwrap_or(0);
    if bytes.iter().any(|byte| *byte != first) {
        return Err(Refusal::BadFlags);
    }
    Ok((bytes.len(), first))
}

/// Does what a line says, and tells the answer.
fn act(alloc: Global, pool: &mut Pool, line: &str) -> Result<String, Fail> {
    let words = &mut line.split_whitespace();
    let call = words.next().unwrap_or("");
    match call {
        "offer" => Ok(format!(in alloc; "{:?}", offer(pool, number(words)?, number(words)?))?),
        "publish" => {
            let number = number(words)?;
            let priority = priority(words).unwrap_or(0);
            let published = publish(alloc, pool, number, priority, self::number(words)?)?;
            Ok(format!(in alloc; "{published:?}")?)
        }
        "post" => Ok(format!(in alloc; "{:?}", post(alloc, pool, number(words)?))?),
        "receive" | "peek" | "drop" => {
            let mode = RecvMode {
                peek: call == "peek",
                drop_it: call == "drop",
                limit: priority(words),
            };
            Ok(format!(in alloc; "{:?}", receive(pool, mode))?)
        }
        "read" | "share" => {
            let bytes = read(alloc, pool, number(words)?, call == "share");
            Ok(format!(in alloc; "{bytes:?}")?)
        }
        "free" => Ok(format!(in alloc; "{:?}", pool.free(SliceNo(number(words)?)))?),
        "used" => Ok(format!(in alloc; "{} {}", pool.used(), pool.waiting())?),
        _ => {
            pool.close();
            Ok(String::new(alloc))
        }
    }
}

/// The size of a pool, and the calls with their answers.
const SCRIPTS: [(u32, &str); 5] = [
    // A third offer waits for the first slice to be freed.
    (
        256,
        "\
offer 1 104 -> Ok(0)
offer 2 104 -> Ok(1)
offer 3 104 -> Err(PoolFull)
publish 0 -> Some(104)
publish 1 -> Some(104)
free 0 -> Err(NoSuchSlice)
receive -> Ok((0, 0, 104, 0))
free 0 -> Ok(())
free 0 -> Err(NoSuchSlice)
offer 3 104 -> Ok(0)
used -> 208 true
receive -> Ok((1, 104, 104, 0))
read 1 -> Ok((104, 1))
close
used -> 0 false",
    ),
    // A user has half of what is free.
    (
        1024,
        "\
offer 1 104 -> Ok(0)
offer 1 104 -> Ok(1)
offer 1 104 -> Ok(2)
offer 1 104 -> Ok(3)
offer 1 104 -> Err(Quota)
offer 2 104 -> Ok(4)
publish 4 -> Some(104)
receive -> Ok((4, 416, 104, 0))",
    ),
    // Limits, peeks and drops order the receives.
    (
        4096,
        "\
offer 1 104 -> Ok(0)
publish 0 5 -> Some(104)
offer 1 104 -> Ok(1)
publish 1 -1 -> Some(104)
offer 1 104 -> Ok(2)
publish 2 -1 -> Some(104)
offer 1 104 -> Ok(3)
publish 3 5 -> Some(104)
receive -2 -> Err(NoSuchPriority)
receive 5 -> Ok((1, 104, 104, 0))
peek 5 -> Ok((2, 208, 104, 0))
free 2 -> Err(NotReceived)
read 2 -> Ok((104, 2))
share 2 -> Err(NoSuchSeal)
receive 5 -> Ok((2, 208, 104, 0))
drop -> Ok((0, 0, 104, 0))
read 0 -> Err(NoSuchSlice)
used -> 312 true
receive -> Ok((3, 312, 104, 0))
receive -> Err(NoMessage { dropped: 0 })",
    ),
    // A notice without a place is told as missed; freed slices that touch are one gap again.
    (
        256,
        "\
post 64 -> Ok(0)
post 64 -> Ok(1)
post 64 -> Ok(2)
post 64 -> Ok(3)
post 8 -> Err(PoolFull)
receive -> Ok((0, 0, 64, 1))
receive -> Ok((1, 64, 64, 0))
receive -> Ok((2, 128, 64, 0))
read 2 -> Ok((64, 9))
free 0 -> Ok(())
free 2 -> Ok(())
free 1 -> Ok(())
post 192 -> Ok(0)
receive -> Ok((3, 192, 64, 0))
receive -> Ok((0, 0, 192, 0))",
    ),
    // A share of sealed bytes is read while its slice is the receiver's, and goes with it.
    (
        1024,
        "\
offer 1 104 -> Ok(0)
publish 0 0 16 -> Some(104)
offer 1 104 -> Ok(1)
publish 1 0 24 -> Some(104)
share 0 -> Err(NoSuchSlice)
peek -> Ok((0, 0, 104, 0))
share 0 -> Ok((16, 3))
receive -> Ok((0, 0, 104, 0))
share 0 -> Ok((16, 3))
read 0 -> Ok((104, 0))
free 0 -> Ok(())
share 0 -> Err(NoSuchSlice)
drop -> Ok((1, 104, 104, 0))
share 1 -> Err(NoSuchSlice)
offer 1 104 -> Ok(0)
publish 0 -> Some(104)
receive -> Ok((0, 0, 104, 0))
share 0 -> Err(NoSuchSeal)",
    ),
];

#[test]
fn slices_are_offered_published_received_and_freed(rt: HostRuntime) -> Result<(), Fail> {
    for (size, script) in SCRIPTS {
        let mut pool = Pool::make(rt.alloc(), size)?;
        for line in script.lines() {
            let (call, wanted) = line.split_once(" -> ").unwrap_or((line, ""));
            let answer = act(rt.alloc(), &mut pool, call)?;
            assert!(rt; answer.as_str() == wanted, "{call} -> {answer}");
        }
    }
    Ok(())
}

/// A drain into an empty buffer for the pool's size.
fn drain(pool: &mut Pool, into: &mut Drained) -> Result<(), Refusal> {
    if into.size() != pool.size() as usize || !into.is_empty() {
        return Err(Refusal::BadFlags);
    }
    pool.drain(into)
}

/// Settles what was drained, if there is room for its counts.
fn settle(pool: &mut Pool, from: Drained) -> bool {
    if pool.published() >= 1_000_000 || pool.dropped() >= 1_000_000 {
        return false;
    }
    pool.settle(from);
    true
}

#[test]
fn a_drain_waits_for_the_senders_and_takes_shares_along(rt: HostRuntime) -> Result<(), Fail> {
    let alloc = rt.alloc();
    let mut pool = Pool::make(alloc, 256)?;
    let mut buffer = Drained::make(alloc, 256)?;
    assert_eq!(rt; offer(&mut pool, 7, 8), Ok(0));
    assert_eq!(rt;
        drain(&mut pool, &mut buffer),
        Err(Refusal::Busy { slice: 0 })
    );
    assert_eq!(rt; publish(alloc, &mut pool, 0, 0, 40)?, Some(8));
    assert_eq!(rt; drain(&mut pool, &mut buffer), Ok(()));
    assert!(rt; !pool.waiting());
    let mut next = Pool::make(alloc, 256)?;
    assert!(rt; settle(&mut next, buffer));
    assert_eq!(rt;
        act(alloc, &mut next, "receive")?.as_str(),
        "Ok((0, 0, 8, 0))"
    );
    assert_eq!(rt; act(alloc, &mut next, "share 0")?.as_str(), "Ok((40, 3))");
    Ok(())
}
