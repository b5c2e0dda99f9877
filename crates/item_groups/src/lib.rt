//! Groups of items: put one behind another, and parted again.
#![tactic(auto)]

ghost use Rattle.std.specs.Prelude.{◌≡◌, ◌*◌, ◌+◌, ◌≤◌, [], ◌++◌, drop, take, vec_len, vec_capacity, IfOk, OnOk};
ghost use Rattle.std.specs.List.{AllByRecursion};
ghost use Rattle.item_groups.specs.Groups.{flat, HasSize};

use std::alloc::{AllocError, Global};

/// The items of groups, one group behind another.
pub fn flatten<T: Drop>(alloc: Global, groups: Vec<Vec<T>>) -> Result<Vec<T>, AllocError>
    ensures { IfOk result (λ all. all.items ≡ flat groups.items) }
{
    let mut all = Vec::new(alloc);
    for mut group in groups {
        all.append(&mut group)?;
    }
    Ok(all)
}

/// Parts items into so many groups of this size.
pub fn regroup<T: Drop>(
    alloc: Global,
    items: Vec<T>,
    count: usize,
    size: usize,
) -> Result<Vec<Vec<T>>, AllocError>
    requires { vec_len items ≡ count * size }
    ensures items { IfOk result (λ groups. flat groups.items ≡ items.items) }
    ensures count { IfOk result (λ groups. vec_len groups ≡ count) }
    ensures sizes { IfOk result (λ groups. AllByRecursion (HasSize size) groups.items) }
{
    let mut groups = Vec::with_capacity(alloc, count)?;
    let mut rest = items;
    for _ in 0..count {
        let behind = rest.split_off(size)?;
        groups.push_reserved(rest);
        rest = behind;
    }
    Ok(groups)
}

#[cfg(test)]
mod tests;
