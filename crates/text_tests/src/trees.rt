use cov_tree::{Boxed, List, Name};
use std::test::*;

#[test]
fn keeps_what_it_is_given(rt: HostRuntime) -> Result<(), Fail> {
    let alloc = rt.alloc();
    let name = Name::of(alloc, b"v_1")?;
    assert_eq!(rt; name.as_slice(), b"v_1".as_slice());
    assert!(rt; name == Name::from_vec(Vec::from_slice(alloc, b"v_1")?)?);
    assert!(rt; name != Name::of(alloc, b"v_")?);
    assert_eq!(rt; name.share()?.as_slice(), b"v_1".as_slice());
    assert_eq!(rt; Name::empty().as_slice(), b"".as_slice());
    let list = List::of(Vec::from_slice(alloc, &[3u64, 1])?);
    assert_eq!(rt; list.as_slice(), [3u64, 1].as_slice());
    assert_eq!(rt; list.into_vec().as_slice(), [3u64, 1].as_slice());
    let boxed = Boxed::of(alloc, 7u64)?;
    assert_eq!(rt; *boxed.get(), 7);
    assert_eq!(rt; boxed.into_inner(), 7);
    Ok(())
}
