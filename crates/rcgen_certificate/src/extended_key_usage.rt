//! Extended key usage.
ghost use Rattle.std.specs.Prelude.{◌≡◌, List, ℕ, true, false, map, IfOk, IfErr, OnOk, OnErr, ◌++◌};
ghost use Rattle.std.specs.List.{list_all};
ghost use Rattle.rcgen_text.specs.declared.error.Error.TheVariants.{OutOfMemory as NoMemory};
ghost use Rattle.rcgen_certificate.specs.ExtendedKeyUsages.{Purpose, other, purpose_of, arcs_of, has_purpose_oid, ext_key_usage, same_purpose, with_purpose, IsNamed, ext_key_usage_row};
ghost use Rattle.rcgen_certificate.specs.contracts.extended_key_usage.ExtendedKeyUsagePurposePartialEq.TheImpl.{ghosts as equality};
ghost use Rattle.rcgen_certificate.specs.declared.extended_key_usage.ExtendedKeyUsagePurpose.{ExtendedKeyUsagePurpose};
ghost use Rattle.rcgen_certificate.specs.ExtensionRows.{row_of_extension};

use crate::extension::push_extension;
use crate::value::identifier_from_u64;
use asn1_core::{ObjectIdentifier, OutOfMemory};
use der_tree::SequenceOf;
use pkix_cert::Extension;
use pkix_cert::extension_id::ID_CE_EXT_KEY_USAGE;
use rcgen_text::Error;
use std::alloc::{AllocError, Global};

/// A purpose that a key is for (RFC 5280, 4.2.1.12). One that is given by its arcs is never equal
/// to one that has a name, even where both have the same arcs.
#[derive(Debug, PartialEq, Eq, PartialOrd, Ord, Hash)]
pub enum ExtendedKeyUsagePurpose {
    /// anyExtendedKeyUsage: whichever purpose.
    Any,
    /// id-kp-serverAuth: servers of TLS.
    ServerAuth,
    /// id-kp-clientAuth: clients of TLS.
    ClientAuth,
    /// id-kp-codeSigning: signatures of code.
    CodeSigning,
    /// id-kp-emailProtection: protection of mail.
    EmailProtection,
    /// id-kp-timeStamping: stamps of time.
    TimeStamping,
    /// id-kp-OCSPSigning: signatures of answers on the status of certificates.
    OcspSigning,
    /// The purpose of these arcs, whichever they are.
    Other(Vec<u64>),
}

impl Drop for ExtendedKeyUsagePurpose {
    fn drop(self) {
        match self {
            ExtendedKeyUsagePurpose::Any => (),
            ExtendedKeyUsagePurpose::ServerAuth => (),
            ExtendedKeyUsagePurpose::ClientAuth => (),
            ExtendedKeyUsagePurpose::CodeSigning => (),
            ExtendedKeyUsagePurpose::EmailProtection => (),
            ExtendedKeyUsagePurpose::TimeStamping => (),
            ExtendedKeyUsagePurpose::OcspSigning => (),
            ExtendedKeyUsagePurpose::Other(_) => (),
        }
    }
}

// no `TryClone`: a copied `Vec` may have another capacity
impl Clone for ExtendedKeyUsagePurpose {
    ghost is_clone = { λ x y. purpose_of y ≡ purpose_of x };

    fn clone(&self) -> Result<ExtendedKeyUsagePurpose, AllocError> {
        match self {
            ExtendedKeyUsagePurpose::Any => Ok(ExtendedKeyUsagePurpose::Any),
            ExtendedKeyUsagePurpose::ServerAuth => Ok(ExtendedKeyUsagePurpose::ServerAuth),
            ExtendedKeyUsagePurpose::ClientAuth => Ok(ExtendedKeyUsagePurpose::ClientAuth),
            ExtendedKeyUsagePurpose::CodeSigning => Ok(ExtendedKeyUsagePurpose::CodeSigning),
            ExtendedKeyUsagePurpose::EmailProtection => {
                Ok(ExtendedKeyUsagePurpose::EmailProtection)
            }
            ExtendedKeyUsagePurpose::TimeStamping => Ok(ExtendedKeyUsagePurpose::TimeStamping),
            ExtendedKeyUsagePurpose::OcspSigning => Ok(ExtendedKeyUsagePurpose::OcspSigning),
            ExtendedKeyUsagePurpose::Other(arcs) => {
                let arcs = Vec::from_slice(*arcs.allocator(), arcs.as_slice())?;
                Ok(ExtendedKeyUsagePurpose::Other(arcs))
            }
        }
    }
}

impl ExtendedKeyUsagePurpose {
    /// The same purpose.
    #[tactic(auto, using(crate::proofs::ExtendedKeyUsages::purposes_equal))]
    pub fn try_clone(&self, _alloc: Global) -> Result<ExtendedKeyUsagePurpose, OutOfMemory>
        ensures purpose { IfOk result (λ copy. purpose_of copy ≡ purpose_of self.now) }
        ensures equal { IfOk result (λ copy. equality.eq copy self.now ≡ true) }
    {
        Ok(self.clone()?)
    }

    /// Its arcs.
    pub(crate) fn oid(&self) -> &[u64]
        ensures { result.now ≡ arcs_of self.now }
    {
        match self {
            ExtendedKeyUsagePurpose::Any => &[2, 5, 29, 37, 0],
            ExtendedKeyUsagePurpose::ServerAuth => &[1, 3, 6, 1, 5, 5, 7, 3, 1],
            ExtendedKeyUsagePurpose::ClientAuth => &[1, 3, 6, 1, 5, 5, 7, 3, 2],
            ExtendedKeyUsagePurpose::CodeSigning => &[1, 3, 6, 1, 5, 5, 7, 3, 3],
            ExtendedKeyUsagePurpose::EmailProtection => &[1, 3, 6, 1, 5, 5, 7, 3, 4],
            ExtendedKeyUsagePurpose::TimeStamping => &[1, 3, 6, 1, 5, 5, 7, 3, 8],
            ExtendedKeyUsagePurpose::OcspSigning => &[1, 3, 6, 1, 5, 5, 7, 3, 9],
            ExtendedKeyUsagePurpose::Other(arcs) => arcs.as_slice(),
        }
    }
}

/// The identifier of the purpose.
fn purpose_id(alloc: Global, purpose: &ExtendedKeyUsagePurpose) -> Result<ObjectIdentifier, Error>
    requires { has_purpose_oid (purpose_of purpose.now) ≡ true }
    ensures value { IfOk result (λ id. id ≡ arcs_of purpose.now) }
    ensures memory { IfErr result (λ e. e ≡ NoMemory) }
{
    identifier_from_u64(alloc, purpose.oid())
}

/// The identifiers of the purposes, in order (RFC 5280, 4.2.1.12); None where there is no purpose.
fn ext_key_usage(
    alloc: Global,
    purposes: &[ExtendedKeyUsagePurpose],
) -> Result<Option<SequenceOf<ObjectIdentifier>>, Error>
    requires { list_all has_purpose_oid (map purpose_of purposes.now) ≡ true }
    ensures value { IfOk result (λ ids. ids ≡ ext_key_usage (map purpose_of purposes.now)) }
    ensures memory { IfErr result (λ e. e ≡ NoMemory) }
{
    if purposes.is_empty() {
        return Ok(None);
    }
    let mut ids = SequenceOf::new(alloc);
    for purpose in purposes {
        ids.push(purpose_id(alloc, purpose)?)?;
    }
    Ok(Some(ids))
}

/// Puts the purpose at the end where none of the list equals it.
pub(crate) fn insert(
    purposes: &mut Vec<ExtendedKeyUsagePurpose>,
    purpose: ExtendedKeyUsagePurpose,
) -> Result<(), Error>
    ensures inserted { OnOk result (purposes.new.items ≡ with_purpose purposes.old.items purpose) }
    ensures unchanged { OnErr result (purposes.new.items ≡ purposes.old.items) }
    ensures memory { IfErr result (λ e. e ≡ NoMemory) }
{
    if !purposes.contains(&purpose) {
        purposes.push(purpose)?;
    }
    Ok(())
}

/// A law: a purpose that is given by its arcs isn't equal to one that has a name.
#[tactic(auto, using(crate::proofs::ExtendedKeyUsages::is_another))]
pub fn other_purpose_is_another()
    ensures { (arcs : List ℕ) (purpose : Purpose) → IsNamed purpose → same_purpose (other arcs) purpose ≡ false }
{}

/// A law: purposes are equal where they have the same name, or the same given arcs.
#[tactic(auto, using(crate::proofs::ExtendedKeyUsages::purposes_same))]
pub fn purposes_are_same()
    ensures { (purpose another : ExtendedKeyUsagePurpose) → equality.eq purpose another ≡ same_purpose (purpose_of purpose) (purpose_of another) }
{}

/// Puts the extension on the purposes of the key at the end.
#[tactic(auto, using(crate::proofs::KindTrees::ext_key_usage_formed))]
pub(crate) fn push_ext_key_usage(
    alloc: Global,
    list: &mut SequenceOf<Extension>,
    purposes: &[ExtendedKeyUsagePurpose],
) -> Result<(), Error>
    requires { list_all has_purpose_oid (map purpose_of purposes.now) ≡ true }
    ensures rows { OnOk result (map row_of_extension list.new ≡ map row_of_extension list.old ++ ext_key_usage_row (map purpose_of purposes.now)) }
    ensures memory { IfErr result (λ e. e ≡ NoMemory) }
{
    let purposes = ext_key_usage(alloc, purposes)?;
    push_extension(alloc, list, ID_CE_EXT_KEY_USAGE, false, purposes)
}
