//! Lists.

use cs_base::Items;
use std::alloc::{AllocError, Global};
use std::test::Fail;

fn pushed(alloc: Global) -> Result<Items<u8>, AllocError> {
    let mut items = Items::new(alloc);
    items.push(3u8)?;
    items.push(1)?;
    Ok(items)
}

#[test]
fn pushes_items(rt: HostRuntime) -> Result<(), Fail> {
    let items = pushed(rt.alloc())?;
    assert!(rt; items.as_slice() == [3, 1].as_slice());
    assert!(rt; items.into_vec().as_slice() == [3, 1].as_slice());
    Ok(())
}
