//! The policies that the user accepts.
ghost use Rattle.std.specs.Prelude.{◌≡◌};
ghost use Rattle.shelf_fault.specs.Faults.{Gets};
ghost use Rattle.shelf_path.specs.Asked.{identifiers, policy_of, policy_set};

use asn1_core::{ObjectIdentifier, OidFault};
use der_tree::SequenceOf;
use shelf_fault::Fault;
use std::alloc::Global;
use toml_format::{Arcs, List, Reason};

/// The identifier of these arcs.
fn policy_of(alloc: Global, arcs: Arcs) -> Result<ObjectIdentifier, Fault>
    ensures { Gets (λ id. id) (policy_of arcs) result }
{
    match ObjectIdentifier::from_u64(alloc, &arcs.into_vec()) {
        Ok(policy) => Ok(policy),
        Err(OidFault::OutOfMemory) => Err(Fault::OutOfMemory),
        Err(OidFault::TooShort) => Err(Fault::Order(Reason::WrongValue)),
        Err(OidFault::BadRoot) => Err(Fault::Order(Reason::WrongValue)),
        Err(OidFault::BadText) => Err(Fault::Order(Reason::WrongValue)),
        Err(OidFault::ArcTooLarge) => Err(Fault::Order(Reason::WrongValue)),
    }
}

/// The identifiers.
fn identifiers(alloc: Global, policies: Vec<Arcs>) -> Result<Vec<ObjectIdentifier>, Fault>
    ensures { Gets (λ ids. ids.items) (identifiers policies.items) result }
{
    let mut list = Vec::new(alloc);
    for arcs in policies {
        list.push(policy_of(alloc, arcs)?)?;
    }
    Ok(list)
}

/// The user-initial-policy-set.
pub(crate) fn policy_set(
    alloc: Global,
    policies: Option<List<Arcs>>,
) -> Result<Option<SequenceOf<ObjectIdentifier>>, Fault>
    ensures { Gets (λ set. set) (policy_set policies) result }
{
    match policies {
        Some(policies) => {
            let list = identifiers(alloc, policies.into_vec())?;
            Ok(Some(SequenceOf::from_vec(list)))
        }
        None => Ok(None),
    }
}
