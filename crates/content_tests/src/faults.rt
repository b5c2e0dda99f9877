//! Names of faults, and which of two is told.

use statement_plan::{Fault, Feature};
use std::test::Fail;

const BATCH: Fault = Fault::NotSupported(Feature::Batch);

const NAMES: [(Fault, &str); 3] = [
    (Fault::UnknownTable, "UnknownTable"),
    (BATCH, "NotSupported"),
    (Fault::UnknownKeyspace, "UnknownKeyspace"),
];

const ORDER: Fault = Fault::NotSupported(Feature::OrderBy);

/// Two faults, and that of them which is told.
const LOWER: [(Fault, Fault, Fault); 4] = [
    (Fault::KeyTwice, Fault::KeyMissing, Fault::KeyMissing),
    (Fault::KeyMissing, Fault::KeyTwice, Fault::KeyMissing),
    (BATCH, ORDER, BATCH),
    (Fault::EmptyKey, ORDER, ORDER),
];

#[test]
fn faults_are_named_and_the_lower_is_told(rt: HostRuntime) -> Result<(), Fail> {
    for (fault, name) in NAMES {
        assert!(rt; fault.name() == name, "{name}");
    }
    for (first, second, told) in LOWER {
        assert!(rt; first.lower(second) == told);
    }
    Ok(())
}
