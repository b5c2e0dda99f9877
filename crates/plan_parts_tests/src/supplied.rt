//! Values by place and by name.

use crate::given::{Given, bytes, list};
use statement_values::{Param, Params, Supplier};
use std::alloc::{AllocError, Global};
use std::collections::BTreeMap;
use std::fmt::Write;
use std::test::Fail;

/// `null`, `unset`, or bytes.
impl Given for Param {
    fn given(alloc: Global, word: &str) -> Result<Param, AllocError> {
        match word {
            "null" => Ok(Param::Null),
            "unset" => Ok(Param::NotSet),
            word => Ok(Param::Given(bytes(alloc, word)?)),
        }
    }
}

/// What the markers of these names take, each with whether values are left behind it.
fn taken(alloc: Global, params: &Params, names: &str) -> Result<String, AllocError> {
    let mut supplier = Supplier::new(params);
    let mut taken = String::new(alloc);
    for name in names.split_whitespace() {
        let param = supplier.take(name);
        let has_left = supplier.has_left();
        write!(taken, "{param:?} {has_left}; ")?;
    }
    Ok(taken)
}

fn taken_by_place(alloc: Global, values: &str, names: &str) -> Result<String, AllocError> {
    taken(alloc, &Params::ByPlace(list(alloc, values)?), names)
}

/// Of values for `n` and `c`.
fn taken_by_name(alloc: Global, names: &str) -> Result<String, AllocError> {
    let mut values = BTreeMap::new(alloc);
    for (name, word) in &[("n", "05"), ("c", "06")] {
        values.insert(String::from_str(alloc, name)?, Param::given(alloc, word)?)?;
    }
    taken(alloc, &Params::ByName(values), names)
}

#[test]
fn markers_take_the_values(rt: HostRuntime) -> Result<(), Fail> {
    let alloc = rt.alloc();
    assert_eq!(rt;
        taken_by_place(alloc, "01 null unset", "a a b a")?.as_str(),
        "Some(Given([1])) true; Some(Null) true; Some(NotSet) false; None false; "
    );
    assert_eq!(rt;
        taken_by_name(alloc, "n n c m")?.as_str(),
        "Some(Given([5])) false; Some(Given([5])) false; Some(Given([6])) false; None false; "
    );
    assert!(rt; Supplier::empty().take("a").is_none());
    Ok(())
}
