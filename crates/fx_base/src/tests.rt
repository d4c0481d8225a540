use super::*;
use std::test::Fail;

#[test]
fn lists(rt: HostRuntime) -> Result<(), Fail> {
    let mut list = List::new([1u8, 2].to_vec(rt.alloc())?);
    list.reserve(1)?;
    list.push(7)?;
    let copy = list.copied()?;
    list.push(8)?;
    assert_eq!(rt; copy.as_slice(), [1, 2, 7].as_slice());
    assert_eq!(rt;
        list.clone()?.into_vec().as_slice(),
        [1, 2, 7, 8].as_slice()
    );
    assert_eq!(rt; list.len(), 4);
    assert!(rt; !list.is_empty());
    assert!(rt; list.iter().all(|byte| *byte < 9));
    Ok(())
}

#[test]
fn empty(rt: HostRuntime) -> Result<(), Fail> {
    let none: List<u64> = List::empty(rt.alloc());
    assert!(rt; none.is_empty());
    Ok(())
}

#[test]
fn counts(rt: HostRuntime) -> Result<(), Fail> {
    let mut count = u64::MAX - 1;
    count_up(&mut count);
    assert_eq!(rt; count, u64::MAX);
    count_up(&mut count);
    assert_eq!(rt; count, u64::MAX);
    Ok(())
}

#[test]
fn digits(rt: HostRuntime) -> Result<(), Fail> {
    assert!(rt; are_digits(b"0059"));
    assert!(rt; are_digits(b""));
    assert!(rt; !are_digits(b"1/"));
    assert!(rt; !are_digits(b":"));
    Ok(())
}

#[test]
fn zeros(rt: HostRuntime) -> Result<(), Fail> {
    assert!(rt; is_zero(&zero_block()));
    assert!(rt; !is_zero(&[0, 0, 1]));
    Ok(())
}
