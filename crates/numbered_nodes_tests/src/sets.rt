//! What no clause says: that calls succeed with ample memory.
use numbered_nodes::sets::NumberSet;
use std::test::Fail;

#[test]
fn numbers_stand_in_sets(rt: HostRuntime) -> Result<(), Fail> {
    let mut first = NumberSet::empty(rt.alloc(), 130)?;
    first.insert(0);
    first.insert(63);
    first.insert(64);
    first.insert(130);
    assert!(rt; first.contains(63) && first.contains(64) && !first.contains(65));
    assert!(rt; first.contains(130) && !first.contains(2));
    let mut second = first.copy(rt.alloc())?;
    second.insert(5);
    second.insert(127);
    assert!(rt; first.is_within(&second) && !second.is_within(&first));
    assert_eq!(rt; first.next_outside(&second, 0, 130), None);
    assert_eq!(rt; second.next_outside(&first, 0, 130), Some(5));
    assert_eq!(rt; second.next_outside(&first, 6, 128), Some(127));
    assert_eq!(rt; second.next_outside(&first, 6, 127), None);
    assert_eq!(rt; second.next_outside(&first, 200, 130), None);
    assert_eq!(rt; second.late_outside(&first, 130), Some(127));
    assert_eq!(rt; second.late_outside(&first, 127), Some(5));
    assert_eq!(rt; second.late_outside(&first, 5), None);
    first.add_all(&second);
    assert!(rt; second.is_within(&first));
    Ok(())
}
