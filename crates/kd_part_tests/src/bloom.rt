//! Filters and masks: which bits a string has, and which filters meet which masks.

use kd_bloom::{Bits, FilterBuilder, Mask, MaskBuilder, MaskError, Param, passes};
use std::alloc::Global;
use std::test::Fail;

/// The filter of `abc` in generation 0 at 8 bytes and 3 hashes: the first words of its digest are
/// ba7816bf 8f01cfea 414140de, so its bits are 63, 42 and 30.
const ABC: u64 = 0x8000_0400_4000_0000;

/// The same in generation 1, where the word 5dae2223 adds bit 35.
const SHARPER_ABC: u64 = 0x8000_0408_4000_0000;

fn small() -> Result<Param, Fail> {
    Ok(Param::of(8, 3).ok_or("8 bytes and 3 hashes are in range")?)
}

fn filter_of(alloc: Global, generation: u64) -> Result<Vec<u8>, Fail> {
    let mut filter = FilterBuilder::make(alloc, small()?, generation)?;
    filter.add(b"abc");
    Ok(filter.finish())
}

#[test]
fn a_parameter_has_a_range(rt: HostRuntime) {
    for (size, hashes, fits) in [
        (8, 1, true),
        (512, 8, true),
        (0, 1, false),
        (12, 1, false),
        (520, 1, false),
        (8, 0, false),
        (8, 9, false),
    ] {
        assert_eq!(rt; Param::of(size, hashes).is_some(), fits);
    }
}

#[test]
fn a_string_has_one_bit_more_in_each_generation_and_a_mask_joins_them(
    rt: HostRuntime,
) -> Result<(), Fail> {
    let alloc = rt.alloc();
    let (first, second) = (ABC.to_le_bytes(), SHARPER_ABC.to_le_bytes());
    assert!(rt; filter_of(alloc, 0)?.as_slice() == first.as_slice());
    assert!(rt; filter_of(alloc, 1)?.as_slice() == second.as_slice());
    let mut mask = MaskBuilder::make(alloc, small()?, 2)?;
    mask.add(b"abc");
    let bytes = mask.finish();
    assert!(rt; bytes.starts_with(&first) && bytes.ends_with(&second));
    Ok(())
}

#[test]
fn a_filter_passes_where_it_has_every_bit_of_the_mask(rt: HostRuntime) -> Result<(), Fail> {
    let mask = Bits::of(rt.alloc(), &[5, 0, 0, 0, 0, 0, 0, 0, 0, 1])?;
    for (low, high, all) in [
        (7, 1, true),
        (6, 1, false),
        (7, 0, false),
        (2, 2, false),
        (5, 255, true),
    ] {
        let filter = Bits::of(rt.alloc(), &[low, 9, 0, 0, 0, 0, 0, 0, 0, high])?;
        assert_eq!(rt; passes(&filter, &mask), all);
    }
    assert_eq!(rt; mask.size(), 10);
    Ok(())
}

#[test]
fn a_mask_has_one_to_four_generations(rt: HostRuntime) -> Result<(), Fail> {
    for (length, wrong) in [
        (0, Some(MaskError::Size)),
        (8, None),
        (12, Some(MaskError::Size)),
        (16, None),
        (32, None),
        (40, Some(MaskError::Size)),
    ] {
        let bytes = vec![in rt.alloc(); 0u8; length]?;
        assert_eq!(rt; Mask::of(rt.alloc(), &bytes, small()?).err(), wrong);
    }
    assert!(rt; Mask::of(rt.alloc(), &[1; 24], small()?)?.is_sized(8));
    Ok(())
}
