//! Extensions that are given as they are.
ghost use Rattle.std.specs.Prelude.{◌≡◌, ◌++◌, true, map, IfOk, IfErr, OnOk};
ghost use Rattle.std.specs.List.{list_all};
ghost use Rattle.der_tree.specs.Form.{IsDerOf};
ghost use Rattle.der_tree.specs.PrimitiveTypes.{octet_string};
ghost use Rattle.rcgen_text.specs.declared.error.Error.TheVariants.{OutOfMemory as NoMemory};
ghost use Rattle.rcgen_certificate.specs.CustomExtensions.{custom_of, custom_row, has_custom_oid, id_pe_acme_identifier, not_critical};
ghost use Rattle.rcgen_certificate.specs.ExtensionRows.{row_of_extension};
ghost use Rattle.rcgen_certificate.specs.contracts.custom_extension.CustomExtensionPartialEq.TheImpl.{ghosts as equality};

use crate::extension::typed;
use crate::value::identifier_from_u64;
use asn1_core::{OctetString, OutOfMemory};
use der_tree::{SequenceOf, der};
use pkix_cert::Extension;
use rcgen_sign::memory_only;
use rcgen_text::Error;
use std::alloc::{AllocError, Global};

/// An extension that is given as it is (RFC 5280, 4.2).
#[derive(Debug, Drop, PartialEq, Eq, Hash)]
pub struct CustomExtension {
    oid: Vec<u64>,
    critical: bool,
    content: Vec<u8>,
}

// no `TryClone`: a copied `Vec` may have another capacity
impl Clone for CustomExtension {
    ghost is_clone = { λ x y. custom_of y ≡ custom_of x };

    fn clone(&self) -> Result<CustomExtension, AllocError> {
        let oid = Vec::from_slice(*self.oid.allocator(), self.oid.as_slice())?;
        let content = Vec::from_slice(*self.content.allocator(), self.content.as_slice())?;
        Ok(CustomExtension {
            oid,
            critical: self.critical,
            content,
        })
    }
}

impl CustomExtension {
    /// The identifier of a validation by ACME, critical, with the SHA-256 of its key authorization
    /// (RFC 8737, 3).
    pub fn new_acme_identifier(
        alloc: Global,
        sha_digest: &[u8; 32],
    ) -> Result<CustomExtension, Error>
        ensures oid { IfOk result (λ e. (custom_of e).oid ≡ id_pe_acme_identifier) }
        ensures critical { IfOk result (λ e. (custom_of e).critical ≡ true) }
        ensures content { IfOk result (λ e. IsDerOf octet_string sha_digest.now (custom_of e).content) }
        ensures memory { IfErr result (λ e. e ≡ NoMemory) }
    {
        let oid = Vec::from_slice(alloc, &[1, 3, 6, 1, 5, 5, 7, 1, 31])?;
        let digest = OctetString::new(Vec::from_slice(alloc, sha_digest.as_slice())?);
        let content = memory_only(der::encode(alloc, &digest))?;
        Ok(CustomExtension {
            oid,
            critical: true,
            content,
        })
    }

    /// The extension of these arcs with these contents, not critical.
    pub fn from_oid_content(
        alloc: Global,
        oid: &[u64],
        content: Vec<u8>,
    ) -> Result<CustomExtension, Error>
        ensures given { IfOk result (λ e. custom_of e ≡ not_critical oid.now content.items) }
        ensures memory { IfErr result (λ e. e ≡ NoMemory) }
    {
        let oid = Vec::from_slice(alloc, oid)?;
        Ok(CustomExtension {
            oid,
            critical: false,
            content,
        })
    }

    /// Says whether it is critical.
    pub fn set_criticality(&mut self, criticality: bool)
        ensures { custom_of self.new ≡ record (custom_of self.old) { critical = criticality } }
    {
        self.critical = criticality;
    }

    /// Whether it is critical.
    pub fn criticality(&self) -> bool
        ensures { result ≡ (custom_of self.now).critical }
    {
        self.critical
    }

    /// Its contents.
    pub fn content(&self) -> &[u8]
        ensures { result.now ≡ (custom_of self.now).content }
    {
        self.content.as_slice()
    }

    /// Its arcs.
    pub fn oid_components(&self) -> &[u64]
        ensures { result.now ≡ (custom_of self.now).oid }
    {
        self.oid.as_slice()
    }

    /// The same extension.
    #[tactic(auto, using(crate::proofs::CustomExtensions::customs_equal))]
    pub fn try_clone(&self, _alloc: Global) -> Result<CustomExtension, OutOfMemory>
        ensures given { IfOk result (λ copy. custom_of copy ≡ custom_of self.now) }
        ensures equal { IfOk result (λ copy. equality.eq copy self.now ≡ true) }
    {
        Ok(self.clone()?)
    }
}

/// The extension of a certificate that is given.
#[tactic(auto, using(crate::proofs::CustomExtensions::row_of_given))]
fn extension_of(alloc: Global, custom: &CustomExtension) -> Result<Extension, Error>
    requires { has_custom_oid (custom_of custom.now) ≡ true }
    ensures row { IfOk result (λ e. row_of_extension e ≡ custom_row (custom_of custom.now)) }
    ensures memory { IfErr result (λ e. e ≡ NoMemory) }
{
    let contents = Vec::from_slice(alloc, custom.content())?;
    let id = identifier_from_u64(alloc, custom.oid_components())?;
    Ok(typed(id, custom.criticality(), contents))
}

/// Puts the extensions that are given at the end, each as it is.
pub(crate) fn push_custom(
    alloc: Global,
    list: &mut SequenceOf<Extension>,
    given: &[CustomExtension],
) -> Result<(), Error>
    requires { list_all has_custom_oid (map custom_of given.now) ≡ true }
    ensures rows { OnOk result (map row_of_extension list.new ≡ map row_of_extension list.old ++ map custom_row (map custom_of given.now)) }
    ensures memory { IfErr result (λ e. e ≡ NoMemory) }
{
    for custom in given {
        list.push(extension_of(alloc, custom)?)?;
    }
    Ok(())
}
