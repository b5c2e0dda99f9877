//! Groups of a few numbers.

use crate::{flatten, regroup};
use std::test::Fail;

#[test]
fn groups_are_put_together_and_parted(rt: HostRuntime) -> Result<(), Fail> {
    let mut groups = Vec::new(rt.alloc());
    groups.push(Vec::from_slice(rt.alloc(), &[1u8, 2])?)?;
    groups.push(Vec::from_slice(rt.alloc(), &[3u8, 4])?)?;
    groups.push(Vec::from_slice(rt.alloc(), &[5u8, 6])?)?;
    let all = flatten(rt.alloc(), groups)?;
    assert_eq!(rt; all.as_slice(), [1u8, 2, 3, 4, 5, 6].as_slice());
    assert!(rt; all.len() == 2 * 3);
    let parts = regroup(rt.alloc(), all, 2, 3)?;
    assert_eq!(rt; parts.len(), 2);
    for (at, part) in parts.iter().enumerate() {
        let wanted = if at == 0 { [1u8, 2, 3] } else { [4, 5, 6] };
        assert_eq!(rt; part.as_slice(), wanted.as_slice());
    }
    Ok(())
}
