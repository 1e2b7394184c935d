use super::*;
use std::test::Fail;

#[test]
fn items_give_back_their_vector(rt: HostRuntime) -> Result<(), Fail> {
    let items = Items::new([1u8, 2, 3].to_vec(rt.alloc())?);
    assert!(rt; items.len() == 3);
    assert!(rt; !items.is_empty());
    assert!(rt; items.as_slice() == [1, 2, 3].as_slice());
    assert!(rt; items.into_vec().as_slice() == [1, 2, 3].as_slice());
    assert!(rt; Items::<u8>::new(Vec::new(rt.alloc())).is_empty());
    Ok(())
}

#[test]
fn items_are_equal_by_their_elements(rt: HostRuntime) -> Result<(), Fail> {
    let mut with_room = Vec::with_capacity(rt.alloc(), 8)?;
    with_room.extend_from_slice(&[1u8, 2])?;
    let one = Items::new(with_room);
    let same = Items::new([1u8, 2].to_vec(rt.alloc())?);
    let other = Items::new([1u8, 3].to_vec(rt.alloc())?);
    assert!(rt; one == same);
    assert!(rt; one != other);
    Ok(())
}
