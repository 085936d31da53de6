ghost use Rattle.std.specs.Prelude.{◌≡◌, ℕ, List, true, false, IfOk, IfErr};
ghost use Rattle.rcgen_text.specs.DnTypes.{Kind, kind_of, custom, type_arcs, type_of_arcs, same_type, IsNamed};
ghost use Rattle.rcgen_text.specs.contracts.dn_type.DnTypePartialEq.TheImpl.{ghosts as equality};
ghost use Rattle.rcgen_text.specs.declared.dn_type.DnType.{DnType};
ghost use Rattle.rcgen_text.specs.declared.error.Error.TheVariants.{OutOfMemory as NoMemory};

use crate::error::Error;
use asn1_core::OutOfMemory;
use std::alloc::{AllocError, Global};

/// The type of an attribute of a name. One that is given by its arcs is never equal to one that has
/// a name, even where both have the same arcs.
#[derive(Debug, PartialEq, Eq, PartialOrd, Ord, Hash)]
pub enum DnType {
    /// X520countryName (RFC 5280, appendix A.1).
    CountryName,
    /// X520LocalityName (RFC 5280, appendix A.1).
    LocalityName,
    /// X520StateOrProvinceName (RFC 5280, appendix A.1).
    StateOrProvinceName,
    /// X520OrganizationName (RFC 5280, appendix A.1).
    OrganizationName,
    /// X520OrganizationalUnitName (RFC 5280, appendix A.1).
    OrganizationalUnitName,
    /// X520CommonName (RFC 5280, appendix A.1).
    CommonName,
    /// The type of these arcs, whichever they are.
    CustomDnType(Vec<u64>),
}

impl Drop for DnType {
    fn drop(self) {
        match self {
            DnType::CountryName => (),
            DnType::LocalityName => (),
            DnType::StateOrProvinceName => (),
            DnType::OrganizationName => (),
            DnType::OrganizationalUnitName => (),
            DnType::CommonName => (),
            DnType::CustomDnType(_) => (),
        }
    }
}

impl DnType {
    /// The type of these arcs: one that has a name where there is such a one.
    #[tactic(auto, unfolding(crate::specs::DnTypes::type_of_arcs))]
    pub fn from_oid(alloc: Global, arcs: &[u64]) -> Result<DnType, Error>
        ensures kind { IfOk result (λ ty. kind_of ty ≡ type_of_arcs arcs.now) }
        ensures memory { IfErr result (λ e. e ≡ NoMemory) }
    {
        match arcs {
            [2, 5, 4, 6] => Ok(DnType::CountryName),
            [2, 5, 4, 7] => Ok(DnType::LocalityName),
            [2, 5, 4, 8] => Ok(DnType::StateOrProvinceName),
            [2, 5, 4, 10] => Ok(DnType::OrganizationName),
            [2, 5, 4, 11] => Ok(DnType::OrganizationalUnitName),
            [2, 5, 4, 3] => Ok(DnType::CommonName),
            _ => Ok(DnType::CustomDnType(Vec::from_slice(alloc, arcs)?)),
        }
    }

    /// The arcs, from the root down.
    pub fn oid(&self) -> &[u64]
        ensures { result.now ≡ type_arcs (kind_of self.now) }
    {
        match self {
            DnType::CountryName => &[2, 5, 4, 6],
            DnType::LocalityName => &[2, 5, 4, 7],
            DnType::StateOrProvinceName => &[2, 5, 4, 8],
            DnType::OrganizationName => &[2, 5, 4, 10],
            DnType::OrganizationalUnitName => &[2, 5, 4, 11],
            DnType::CommonName => &[2, 5, 4, 3],
            DnType::CustomDnType(arcs) => arcs.as_slice(),
        }
    }

    /// A type with the same name or arcs.
    #[tactic(auto, using(crate::proofs::Equality::types_equal))]
    pub fn try_clone(&self, _alloc: Global) -> Result<DnType, OutOfMemory>
        ensures kind { IfOk result (λ copy. kind_of copy ≡ kind_of self.now) }
        ensures equal { IfOk result (λ copy. equality.eq copy self.now ≡ true) }
    {
        Ok(self.clone()?)
    }
}

// no `TryClone`: a copied `Vec` may have another capacity
impl Clone for DnType {
    ghost is_clone = { λ x y. kind_of y ≡ kind_of x };

    fn clone(&self) -> Result<DnType, AllocError> {
        match self {
            DnType::CountryName => Ok(DnType::CountryName),
            DnType::LocalityName => Ok(DnType::LocalityName),
            DnType::StateOrProvinceName => Ok(DnType::StateOrProvinceName),
            DnType::OrganizationName => Ok(DnType::OrganizationName),
            DnType::OrganizationalUnitName => Ok(DnType::OrganizationalUnitName),
            DnType::CommonName => Ok(DnType::CommonName),
            DnType::CustomDnType(arcs) => Ok(DnType::CustomDnType(Vec::from_slice(
                *arcs.allocator(),
                arcs.as_slice(),
            )?)),
        }
    }
}

/// The type that is found for some arcs has those arcs.
#[tactic(auto, using(crate::proofs::DnTypes::keeps_arcs))]
pub fn type_keeps_arcs()
    ensures { (arcs : List ℕ) → type_arcs (type_of_arcs arcs) ≡ arcs }
{}

/// A type that is given by its arcs isn't equal to one that has a name.
#[tactic(auto, using(crate::proofs::DnTypes::is_another))]
pub fn custom_type_is_another()
    ensures { (arcs : List ℕ) (kind : Kind) → IsNamed kind → same_type (custom arcs) kind ≡ false }
{}

/// Types are equal where they have the same name, or the same given arcs.
#[tactic(auto, using(crate::proofs::Equality::types_same))]
pub fn types_are_same()
    ensures { (ty other : DnType) → equality.eq ty other ≡ same_type (kind_of ty) (kind_of other) }
{}
