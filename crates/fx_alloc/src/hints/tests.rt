use super::*;

// Free blocks are found in their order, from any place on, over words and past those with none.
#[test]
fn first_bits(rt: HostRuntime) -> Result<(), AllocError> {
    let mut hints = vec![in rt.alloc(); 0; 5]?;
    note(hints.as_mut_slice(), 3, Use::Free);
    note(hints.as_mut_slice(), 64, Use::Free);
    note(hints.as_mut_slice(), 319, Use::Free);
    assert!(rt; find_hint(hints.as_slice(), 0) == Some(3));
    assert!(rt; find_hint(hints.as_slice(), 4) == Some(64));
    assert!(rt; find_hint(hints.as_slice(), 64) == Some(64));
    note(hints.as_mut_slice(), 64, Use::Live);
    assert!(rt; find_hint(hints.as_slice(), 4) == Some(319));
    assert!(rt; find_hint(hints.as_slice(), 320).is_none());
    Ok(())
}
