//! Each public function once.
use crate::{Kept, Stack};
use std::alloc::AllocError;

#[test]
fn a_table_is_full(rt: HostRuntime) -> Result<(), AllocError> {
    let counted = Kept::counted(rt.alloc(), 3)?;
    assert_eq!(rt; counted.as_slice(), [0, 1, 2].as_slice());
    let mut filled = Kept::filled(rt.alloc(), 7u8, 4)?;
    filled[1] = 8;
    filled.as_mut_slice()[2] = 9;
    assert_eq!(rt; filled.as_slice(), [7, 8, 9, 7].as_slice());
    assert_eq!(rt; filled.len(), 4);
    assert_eq!(rt; filled.room(), 4);
    Ok(())
}

#[test]
fn a_stack_keeps_its_room(rt: HostRuntime) -> Result<(), AllocError> {
    let mut stack = Stack::new(rt.alloc(), 3)?;
    assert!(rt; stack.is_empty());
    stack.push(5u16);
    stack.push(6);
    stack[0] = 4;
    assert_eq!(rt; stack.as_slice(), [4, 6].as_slice());
    assert_eq!(rt; stack.pop(), Some(6));
    assert_eq!(rt; stack.len(), 1);
    stack.clear();
    assert_eq!(rt; stack.pop(), None);
    assert_eq!(rt; stack.room(), 3);
    Ok(())
}
