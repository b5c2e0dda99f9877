//! The values that a request gives (native_protocol_v4.spec, section 4.1.4).

ghost use Rattle.std.specs.Prelude.{◌≡◌, ℕ, List, None, map, IfOk};
ghost use Rattle.std.specs.BTreeMap.{get_by_text};
ghost use Rattle.session_v4.specs.Given.{param_of as param_of_value, value_named, AreGiven};

use cs_base::Items;
use frame_bodies::{NamedValue, Value, Values};
use statement_values::{Param, ParamList, Params};
use std::alloc::{AllocError, Global};
use std::collections::BTreeMap;

fn param_of(value: Value) -> Param
    ensures { result ≡ param_of_value value }
{
    match value {
        Value::Null => Param::Null,
        Value::NotSet => Param::NotSet,
        Value::Given(bytes) => Param::Given(bytes),
    }
}

pub(crate) fn params_by_place(alloc: Global, values: Items<Value>) -> Result<ParamList, AllocError>
    ensures { IfOk result (λ params. params ≡ map param_of_value values) }
{
    let mut params = Vec::with_capacity(alloc, values.as_slice().len())?;
    for value in values.into_vec() {
        params.push(param_of(value))?;
    }
    Ok(Items::from_vec(params))
}

/// The values by their names; of several of one name the last.
fn params_by_name(
    alloc: Global,
    values: Items<NamedValue>,
) -> Result<BTreeMap<String, Param>, AllocError>
    ensures { IfOk result (λ params. (name : List ℕ) → get_by_text params name ≡ value_named None values name) }
{
    let mut params = BTreeMap::new(alloc);
    for named in values.into_vec() {
        let NamedValue { name, value } = named;
        let name = String::from_str(alloc, name.as_str())?;
        params.insert(name, param_of(value))?;
    }
    Ok(params)
}

/// What is given for the markers of a statement.
pub(crate) fn params_of(alloc: Global, values: Values) -> Result<Params, AllocError>
    ensures { IfOk result (AreGiven values) }
{
    match values {
        Values::Absent => Ok(Params::ByPlace(Items::new(alloc))),
        Values::ByPlace(values) => Ok(Params::ByPlace(params_by_place(alloc, values)?)),
        Values::ByName(values) => Ok(Params::ByName(params_by_name(alloc, values)?)),
    }
}
