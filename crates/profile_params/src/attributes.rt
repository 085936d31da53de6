//! The attributes of an attribute certificate (RFC 5755, 4.2.7).
ghost use Rattle.std.specs.Prelude.{◌≡◌, map, IfOk, IfErr};
ghost use Rattle.rcgen_certificate.specs.Requests.{given_of};
ghost use Rattle.rcgen_text.specs.declared.error.Error.TheVariants.{OutOfMemory};
ghost use Rattle.profile_params.specs.Attributes.{attribute_of_profile};

use rcgen_issue::{Attribute, Error};
use std::alloc::Global;
use toml_format::AttributeEntry;

/// The attribute with the values as they are in the entry.
fn attribute(entry: AttributeEntry) -> Attribute
    ensures { given_of result ≡ attribute_of_profile entry }
{
    Attribute {
        oid: entry.oid.into_vec(),
        values: entry.values.into_vec(),
    }
}

/// The attributes, in order. `OutOfMemory` is the only error.
pub fn attributes_of_profile(
    alloc: Global,
    entries: Vec<AttributeEntry>,
) -> Result<Vec<Attribute>, Error>
    ensures attributes { IfOk result (λ list. map given_of list.items ≡ map attribute_of_profile entries.items) }
    ensures memory { IfErr result (λ e. e ≡ OutOfMemory) }
{
    let mut list = Vec::with_capacity(alloc, entries.len())?;
    for entry in entries {
        list.push(attribute(entry))?;
    }
    Ok(list)
}
