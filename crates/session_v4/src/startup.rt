//! STARTUP and OPTIONS (native_protocol_v4.spec, sections 4.1.1, 4.1.3 and 4.2.4).

ghost use Rattle.std.specs.Prelude.{◌≡◌, IfOk, option_copied};
ghost use Rattle.session_v4.specs.Startup.{has_key as has_key_of, is_bad as is_bad_of, startup_fault as startup_fault_of, needs_startup as needs_startup_of, supported as supported_response};

use cs_base::{Items, Text};
use frame_bodies::{Request, Response, StringPair, SupportedOption};
use std::alloc::{AllocError, Global};

fn has_key(key: &str, options: &[StringPair]) -> bool
    ensures { result ≡ has_key_of key.now options.now }
{
    options.iter().any(|option| option.key.as_str() == key)
}

fn is_bad(options: &[StringPair]) -> bool
    ensures { result ≡ is_bad_of options.now }
{
    !has_key("CQL_VERSION", options) || has_key("COMPRESSION", options)
}

/// Why a STARTUP is refused by a connection that started, or has not.
pub(crate) fn startup_fault(started: bool, options: &[StringPair]) -> Option<&'static str>
    ensures { option_copied result ≡ startup_fault_of started options.now }
{
    if started {
        Some("startup twice")
    } else if is_bad(options) {
        Some("bad startup")
    } else {
        None
    }
}

/// STARTUP and OPTIONS alone may stand before STARTUP.
pub(crate) fn needs_startup(request: &Request) -> bool
    ensures { result ≡ needs_startup_of request.now }
{
    match request {
        Request::Startup(_) | Request::Options => false,
        Request::Query(_)
        | Request::Prepare(_)
        | Request::Execute(_)
        | Request::Register(_)
        | Request::Batch(_) => true,
    }
}

/// The one version of CQL, and no compression.
pub(crate) fn supported(alloc: Global) -> Result<Response, AllocError>
    ensures { IfOk result (λ r. r ≡ supported_response) }
{
    let mut versions = Items::new(alloc);
    versions.push(Text::from_str(alloc, "3.4.0")?)?;
    let mut options = Items::new(alloc);
    options.push(SupportedOption {
        name: Text::from_str(alloc, "CQL_VERSION")?,
        values: versions,
    })?;
    options.push(SupportedOption {
        name: Text::from_str(alloc, "COMPRESSION")?,
        values: Items::new(alloc),
    })?;
    Ok(Response::Supported(options))
}
