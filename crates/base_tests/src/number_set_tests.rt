use number_set::NumberSet;
use std::alloc::{AllocError, Global};
use std::test::Fail;

#[test]
fn a_number_is_in_it_once_it_was_added(rt: HostRuntime) -> Result<(), Fail> {
    let mut set = NumberSet::new(rt.alloc());
    assert!(rt; !set.contains(5));
    for n in [5, 0, u64::MAX, 5] {
        set.insert(n)?;
    }
    for n in [5, 0, u64::MAX] {
        assert!(rt; set.contains(n));
    }
    assert!(rt; !set.contains(4));
    assert!(rt; !set.contains(6));
    Ok(())
}

// Whether these numbers, put in one after another, leave this mark and these numbers above it.
fn leave(alloc: Global, numbers: &[u64], mark: u64, above: &[u64]) -> Result<bool, AllocError> {
    let mut set = NumberSet::new(alloc);
    for n in numbers {
        set.insert(*n)?;
    }
    Ok(set.gaps() == (mark, above))
}

#[test]
fn the_gaps_are_told_in_each_order(rt: HostRuntime) -> Result<(), Fail> {
    let alloc = rt.alloc();
    let most = u64::MAX;
    for (numbers, mark, above) in [
        ([].as_slice(), 0, [].as_slice()),
        (&[0, 1, 2, 3], 4, &[]),
        (&[3, 2, 1], 0, &[1, 2, 3]),
        (&[3, 2, 1, 0], 4, &[]),
        (&[4, 2, 6, 3, 5], 0, &[2, 3, 4, 5, 6]),
        (&[4, 2, 6, 3, 0, 8, 1], 5, &[6, 8]),
        (&[1, 1, 3, 0, 1, 0, 3], 2, &[3]),
        (&[most, 0, most, most - 1], 1, &[most - 1, most]),
    ] {
        assert!(rt; leave(alloc, numbers, mark, above)?);
    }
    Ok(())
}

// The numbers below 64 but 0, put in seventeen apart.
fn all_but_the_first(alloc: Global) -> Result<NumberSet, AllocError> {
    let mut set = NumberSet::new(alloc);
    for k in 1..64u64 {
        set.insert(k * 17 % 64)?;
    }
    Ok(set)
}

#[test]
fn the_last_gap_closes_them_all(rt: HostRuntime) -> Result<(), Fail> {
    let mut set = all_but_the_first(rt.alloc())?;
    let (mark, above) = set.gaps();
    assert!(rt; mark == 0 && above.len() == 63);
    assert!(rt; above.first() == Some(&1) && above.last() == Some(&63));
    set.insert(0)?;
    assert!(rt; set.gaps() == (64, [].as_slice()));
    Ok(())
}
