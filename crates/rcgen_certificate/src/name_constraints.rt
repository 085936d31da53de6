//! Constraints on the names of certificates further on in a path.
ghost use Rattle.std.specs.Prelude.{◌≡◌, true, None, map, IfOk, IfErr, refl, flat_map, ◌++◌, OnOk};
ghost use Rattle.std.specs.List.{list_all};
ghost use Rattle.std.specs.Option.{IfSome, option_copied, option_map};
ghost use Rattle.der_tree.specs.Grammar.{sequence_of};
ghost use Rattle.der_tree.specs.HasTree.{HasTree};
ghost use Rattle.pkix_cert.specs.Constraints.{general_subtree, name_constraints as name_constraints_codec};
ghost use Rattle.pkix_name.specs.GeneralNames.{general_name};
ghost use Rattle.rcgen_text.specs.declared.error.Error.TheVariants.{OutOfMemory as NoMemory};
ghost use Rattle.rcgen_certificate.specs.AsciiTexts.{is_ascii};
ghost use Rattle.rcgen_certificate.specs.NameConstraints.{base_of, bases_of, base_texts, has_base_types, constraint_texts, has_subtree_types, base_value, subtree_value, subtrees, constraints_value, name_constraints, name_constraints_row};
ghost use Rattle.rcgen_certificate.specs.contracts.name_constraints.GeneralSubtreePartialEq.TheImpl.{ghosts as subtree_equality};
ghost use Rattle.rcgen_certificate.specs.contracts.name_constraints.NameConstraintsPartialEq.TheImpl.{ghosts as equality};
ghost use Rattle.rcgen_certificate.specs.ExtensionRows.{row_of_extension};

use crate::extension::push_extension;
use crate::name_value::name_value;
use crate::value::ia5_text;
use asn1_core::{Integer, OctetString, OutOfMemory};
use der_tree::SequenceOf;
use pkix_cert::extension_id::ID_CE_NAME_CONSTRAINTS;
use pkix_cert::{Extension, GeneralName, GeneralSubtrees};
use rcgen_text::{CidrSubnet, DistinguishedName, Error};
use std::alloc::{AllocError, Global};

/// Names of one kind: a name, and those that lie below it (RFC 5280, 4.2.1.10).
#[derive(Debug, PartialEq, Eq)]
pub enum GeneralSubtree {
    /// A mailbox, or all of a host or a domain. In ASCII; otherwise nothing is issued.
    Rfc822Name(String),
    /// A domain name. In ASCII; otherwise nothing is issued.
    DnsName(String),
    /// A distinguished name.
    DirectoryName(DistinguishedName),
    /// Addresses of the internet protocol.
    IpAddress(CidrSubnet),
}

impl Drop for GeneralSubtree {
    fn drop(self) {
        match self {
            GeneralSubtree::Rfc822Name(_) => (),
            GeneralSubtree::DnsName(_) => (),
            GeneralSubtree::DirectoryName(_) => (),
            GeneralSubtree::IpAddress(_) => (),
        }
    }
}

// no `TryClone`: a copied `String` may have another capacity
impl Clone for GeneralSubtree {
    ghost is_clone = { λ x y. base_of y ≡ base_of x };

    fn clone(&self) -> Result<GeneralSubtree, AllocError> {
        match self {
            GeneralSubtree::Rfc822Name(text) => Ok(GeneralSubtree::Rfc822Name(text.clone()?)),
            GeneralSubtree::DnsName(text) => Ok(GeneralSubtree::DnsName(text.clone()?)),
            GeneralSubtree::DirectoryName(name) => {
                Ok(GeneralSubtree::DirectoryName(name.clone()?))
            }
            GeneralSubtree::IpAddress(subnet) => Ok(GeneralSubtree::IpAddress(*subnet)),
        }
    }
}

impl GeneralSubtree {
    /// The same subtree.
    #[tactic(auto, using(crate::proofs::Constraints::subtrees_equal))]
    pub fn try_clone(&self, _alloc: Global) -> Result<GeneralSubtree, OutOfMemory>
        ensures base { IfOk result (λ copy. base_of copy ≡ base_of self.now) }
        ensures equal { IfOk result (λ copy. subtree_equality.eq copy self.now ≡ true) }
    {
        Ok(self.clone()?)
    }
}

/// The names that certificates further on in a path may have, and may not have (RFC 5280,
/// 4.2.1.10). Without a subtree there is no extension.
#[derive(Clone, Debug, PartialEq, Eq, Drop)]
pub struct NameConstraints {
    /// A name of a kind that occurs here has to lie in one of that kind's subtrees.
    pub permitted_subtrees: Vec<GeneralSubtree>,
    /// A name may lie in none of these, even if it lies in a permitted one.
    pub excluded_subtrees: Vec<GeneralSubtree>,
}

// no `TryClone`: a copied `Vec` may have another capacity
impl NameConstraints {
    /// The same constraints.
    #[tactic(auto, using(crate::proofs::Constraints::copies))]
    pub fn try_clone(&self, _alloc: Global) -> Result<NameConstraints, OutOfMemory>
        ensures bases { IfOk result (λ copy. bases_of copy ≡ bases_of self.now) }
        ensures equal { IfOk result (λ copy. equality.eq copy self.now ≡ true) }
    {
        Ok(self.clone()?)
    }
}

/// The name with which the subtree begins.
fn base_value(alloc: Global, subtree: &GeneralSubtree) -> Result<GeneralName, Error>
    requires texts { list_all is_ascii (base_texts (base_of subtree.now)) ≡ true }
    requires types { has_base_types (base_of subtree.now) ≡ true }
    ensures value { IfOk result (λ n. n ≡ base_value (base_of subtree.now)) }
    ensures formed { IfOk result (HasTree general_name) }
    ensures memory { IfErr result (λ e. e ≡ NoMemory) }
{
    match subtree {
        GeneralSubtree::Rfc822Name(text) => {
            Ok(GeneralName::Rfc822Name(ia5_text(alloc, text.as_str())?))
        }
        GeneralSubtree::DnsName(text) => Ok(GeneralName::DnsName(ia5_text(alloc, text.as_str())?)),
        GeneralSubtree::DirectoryName(name) => {
            Ok(GeneralName::DirectoryName(name_value(alloc, name)?))
        }
        GeneralSubtree::IpAddress(subnet) => {
            Ok(GeneralName::IpAddress(OctetString::new(subnet.to_bytes(alloc)?)))
        }
    }
}

/// The subtree with its base, and all below it.
#[tactic(auto, unfolding(pkix_cert::specs::Constraints::general_subtree_fields))]
fn subtree_value(
    alloc: Global,
    subtree: &GeneralSubtree,
) -> Result<pkix_cert::GeneralSubtree, Error>
    requires texts { list_all is_ascii (base_texts (base_of subtree.now)) ≡ true }
    requires types { has_base_types (base_of subtree.now) ≡ true }
    ensures value { IfOk result (λ s. s ≡ subtree_value (base_of subtree.now)) }
    ensures formed { IfOk result (HasTree general_subtree) }
    ensures memory { IfErr result (λ e. e ≡ NoMemory) }
{
    let base = base_value(alloc, subtree)?;
    let minimum = Integer::from_unsigned(alloc, &[])?;
    Ok(pkix_cert::GeneralSubtree {
        base,
        minimum,
        maximum: None,
    })
}

/// The subtrees of one list; None where there are none.
fn subtrees(alloc: Global, list: &[GeneralSubtree]) -> Result<Option<GeneralSubtrees>, Error>
    requires texts { list_all is_ascii (flat_map base_texts (map base_of list.now)) ≡ true }
    requires types { list_all has_base_types (map base_of list.now) ≡ true }
    ensures value { IfOk result (λ s. s ≡ subtrees (map base_of list.now)) }
    ensures formed { IfOk result (λ s. IfSome s (HasTree (sequence_of general_subtree 0 None refl))) }
    ensures memory { IfErr result (λ e. e ≡ NoMemory) }
{
    if list.is_empty() {
        return Ok(None);
    }
    let mut values = SequenceOf::new(alloc);
    for subtree in list {
        values.push(subtree_value(alloc, subtree)?)?;
    }
    Ok(Some(values))
}

/// The constraints; None where there is no subtree (RFC 5280, 4.2.1.10).
#[tactic(auto, using(crate::proofs::Constraints::parts), unfolding(pkix_cert::specs::Constraints::name_constraints_fields))]
fn name_constraints(
    alloc: Global,
    constraints: Option<&NameConstraints>,
) -> Result<Option<pkix_cert::NameConstraints>, Error>
    requires texts { list_all is_ascii (constraint_texts (option_map bases_of (option_copied constraints))) ≡ true }
    requires types { has_subtree_types (option_map bases_of (option_copied constraints)) ≡ true }
    ensures value { IfOk result (λ c. c ≡ name_constraints (option_map bases_of (option_copied constraints.entry))) }
    ensures formed { IfOk result (λ c. IfSome c (HasTree name_constraints_codec)) }
    ensures memory { IfErr result (λ e. e ≡ NoMemory) }
{
    let Some(constraints) = constraints else {
        return Ok(None);
    };
    if constraints.permitted_subtrees.is_empty() && constraints.excluded_subtrees.is_empty() {
        return Ok(None);
    }
    let permitted_subtrees = subtrees(alloc, &constraints.permitted_subtrees)?;
    let excluded_subtrees = subtrees(alloc, &constraints.excluded_subtrees)?;
    Ok(Some(pkix_cert::NameConstraints {
        permitted_subtrees,
        excluded_subtrees,
    }))
}

/// Puts the extension on the names of certificates further on in a path at the end.
pub(crate) fn push_name_constraints(
    alloc: Global,
    list: &mut SequenceOf<Extension>,
    constraints: Option<&NameConstraints>,
) -> Result<(), Error>
    requires types { has_subtree_types (option_map bases_of (option_copied constraints)) ≡ true }
    requires texts { list_all is_ascii (constraint_texts (option_map bases_of (option_copied constraints))) ≡ true }
    ensures rows { OnOk result (map row_of_extension list.new ≡ map row_of_extension list.old ++ name_constraints_row (option_map bases_of (option_copied constraints.entry))) }
    ensures memory { IfErr result (λ e. e ≡ NoMemory) }
{
    let names = name_constraints(alloc, constraints)?;
    push_extension(alloc, list, ID_CE_NAME_CONSTRAINTS, true, names)
}
