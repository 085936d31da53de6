//! Name constraints (RFC 5280, 4.2.1.10).
ghost use Rattle.std.specs.Prelude.{◌≡◌, map, IfOk, IfErr};
ghost use Rattle.std.specs.Option.{option_map};
ghost use Rattle.rcgen_certificate.specs.NameConstraints.{base_of, bases_of};
ghost use Rattle.rcgen_text.specs.declared.error.Error.TheVariants.{OutOfMemory};
ghost use Rattle.profile_params.specs.Constraints.{are_there, subtree_of_profile, constraints_of_profile, subtrees_of};

use rcgen_issue::{DistinguishedName, Error, GeneralSubtree, NameConstraints};
use std::alloc::Global;
use toml_format::{Constraints, List, Subtree};

fn general_subtree(alloc: Global, subtree: Subtree) -> Result<GeneralSubtree, Error>
    ensures base { IfOk result (λ general. base_of general ≡ subtree_of_profile subtree) }
    ensures memory { IfErr result (λ e. e ≡ OutOfMemory) }
{
    match subtree {
        Subtree::Dns(text) => Ok(GeneralSubtree::DnsName(text.into_string())),
        Subtree::Email(text) => Ok(GeneralSubtree::Rfc822Name(text.into_string())),
        Subtree::Directory(text) => {
            let name = DistinguishedName::from_common_name(alloc, text.into_string())?;
            Ok(GeneralSubtree::DirectoryName(name))
        }
        Subtree::Net(subnet) => Ok(GeneralSubtree::IpAddress(subnet)),
    }
}

/// The subtrees of a list, which may be left out.
fn general_subtrees(
    alloc: Global,
    subtrees: Option<List<Subtree>>,
) -> Result<Vec<GeneralSubtree>, Error>
    ensures bases { IfOk result (λ list. map base_of list.items ≡ map subtree_of_profile (subtrees_of subtrees)) }
    ensures memory { IfErr result (λ e. e ≡ OutOfMemory) }
{
    let Some(subtrees) = subtrees else {
        return Ok(Vec::new(alloc));
    };
    let subtrees = subtrees.into_vec();
    let mut list = Vec::with_capacity(alloc, subtrees.len())?;
    for subtree in subtrees {
        list.push(general_subtree(alloc, subtree)?)?;
    }
    Ok(list)
}

fn are_there(constraints: &Constraints) -> bool
    ensures { result ≡ are_there constraints.now }
{
    constraints.permitted.is_some() || constraints.excluded.is_some()
}

/// The name constraints, where one of the lists is there.
pub(crate) fn name_constraints(
    alloc: Global,
    constraints: Constraints,
) -> Result<Option<NameConstraints>, Error>
    ensures constraints { IfOk result (λ found. option_map bases_of found ≡ constraints_of_profile constraints) }
    ensures memory { IfErr result (λ e. e ≡ OutOfMemory) }
{
    if !are_there(&constraints) {
        return Ok(None);
    }
    Ok(Some(NameConstraints {
        permitted_subtrees: general_subtrees(alloc, constraints.permitted)?,
        excluded_subtrees: general_subtrees(alloc, constraints.excluded)?,
    }))
}
