//! Sealed payloads: shares that outlive their seal, ranges, limits, numbers.

ghost use Rattle.std.specs.Prelude.{◌<◌, ◌≤◌, ◌⊎◌, length, IsTrue};

use kd_seal::{Sealed, Seals};
use kd_types::{ConnId, Refusal};
use std::test::Fail;

#[test]
fn a_share_outlives_its_seal(rt: HostRuntime) -> Result<(), Fail> {
    let alloc = rt.alloc();
    let mut seals = Seals::make(alloc)?;
    let all = Sealed::of(b"sealed".to_vec(alloc)?)?;
    assert_eq!(rt; seals.may_seal(ConnId(1), 6), Ok(1));
    assert_eq!(rt; seals.seal(ConnId(1), all), Ok(1));
    let share = seals.share(ConnId(1), 1, 0, 6)?;
    assert_eq!(rt; seals.may_unseal(ConnId(1), 1), Ok(()));
    assert_eq!(rt; seals.unseal(ConnId(1), 1), Ok(()));
    assert_eq!(rt; share.bytes(), b"sealed".as_slice());
    assert_eq!(rt; share.clone()?.bytes(), b"sealed".as_slice());
    assert_eq!(rt;
        seals.share(ConnId(1), 1, 0, 6).err(),
        Some(Refusal::NoSuchSeal)
    );
    assert_eq!(rt; seals.unseal(ConnId(1), 1), Err(Refusal::NoSuchSeal));
    assert_eq!(rt; seals.may_seal(ConnId(1), 6), Ok(2));
    Ok(())
}

#[test]
fn a_range_is_shared_where_it_is_inside(rt: HostRuntime) -> Result<(), Fail> {
    let alloc = rt.alloc();
    let mut seals = Seals::make(alloc)?;
    let all = Sealed::of(b"sealed".to_vec(alloc)?)?;
    assert_eq!(rt; seals.seal(ConnId(1), all), Ok(1));
    assert_eq!(rt; seals.share(ConnId(1), 1, 2, 3)?.bytes(), b"ale".as_slice());
    assert!(rt; seals.share(ConnId(1), 1, 6, 0)?.bytes().is_empty());
    let outside = [(0, 7), (6, 1), (7, 0), (u64::MAX, 1), (1, u64::MAX)];
    for (start, length) in outside {
        assert_eq!(rt;
            seals.share(ConnId(1), 1, start, length).err(),
            Some(Refusal::NoSuchSeal)
        );
    }
    assert_eq!(rt;
        seals.share(ConnId(2), 1, 0, 6).err(),
        Some(Refusal::NoSuchSeal)
    );
    Ok(())
}

#[test]
fn a_connection_seals_sixteen_and_counts_on(rt: HostRuntime) -> Result<(), Fail> {
    let alloc = rt.alloc();
    let mut seals = Seals::make(alloc)?;
    'sealing: for i in 0..16 {
        let bytes = Sealed::of(b"x".to_vec(alloc)?)?;
        let number = seals.seal(ConnId(1), bytes)?;
        assert_eq!(rt; number, i + 1);
    }
    assert_eq!(rt;
        seals.may_seal(ConnId(1), 1),
        Err(Refusal::TooMany { limit: 16 })
    );
    assert_eq!(rt; seals.may_seal(ConnId(2), 1), Ok(1));
    assert_eq!(rt; seals.unseal(ConnId(1), 7), Ok(()));
    assert_eq!(rt; seals.may_seal(ConnId(1), 1), Ok(17));
    seals.drop_conn(ConnId(1));
    assert_eq!(rt; seals.may_unseal(ConnId(1), 1), Err(Refusal::NoSuchSeal));
    Ok(())
}

#[test]
fn the_longest_payload_has_65536_bytes(rt: HostRuntime) -> Result<(), Fail> {
    let alloc = rt.alloc();
    let mut seals = Seals::make(alloc)?;
    assert_eq!(rt; seals.may_seal(ConnId(1), 65_537), Err(Refusal::TooLong));
    let longest = Sealed::of(vec![in alloc; 7u8; 65_536]?)?;
    assert_eq!(rt; seals.seal(ConnId(1), longest), Ok(1));
    assert_eq!(rt;
        seals.share(ConnId(1), 1, 65_535, 1)?.bytes(),
        [7u8].as_slice()
    );
    Ok(())
}
