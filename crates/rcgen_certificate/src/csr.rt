//! Requests for certificates (RFC 2986).
ghost use Rattle.std.specs.Prelude.{◌≡◌, ◌↔◌, ◌++◌, ℕ, List, [], ◌∷◌, Option, Some, None, true, false, ◌&&◌, map, is_some, not, length, IfOk, IfErr, OnOk, refl};
ghost use Rattle.std.proofs.Common.{rules};
ghost use Rattle.std.specs.List.{list_all};
ghost use Rattle.std.specs.List.Sorted.{IsPermutation};
ghost use Rattle.der_tree.specs.AnyElement.{is_one};
ghost use Rattle.der_tree.specs.HasTree.{HasTree};
ghost use Rattle.der_tree.specs.SetOf.{is_set};
ghost use Rattle.pkix_cert.specs.Extensions.{extensions as extensions_codec};
ghost use Rattle.pkix_cert.specs.Requests.{certification_request_info as info_codec};
ghost use Rattle.pkix_cert.specs.declared.request.CertificationRequestInfo.{CertificationRequestInfo};
ghost use Rattle.pkix_name.specs.Names.{attribute as attribute_codec};
ghost use Rattle.rcgen_text.specs.Causes.{attribute_values, Explains, origin_of, when};
ghost use Rattle.rcgen_text.specs.declared.error.Error.TheVariants.{OutOfMemory};
ghost use Rattle.rcgen_sign.specs.Keys.{Key};
ghost use Rattle.rcgen_certificate.specs.ExtensionRows.{unless_empty};
ghost use Rattle.rcgen_certificate.specs.Issue.{all_oids_valid};
ghost use Rattle.rcgen_certificate.specs.IssuedExtensions.{has_no_place};
ghost use Rattle.rcgen_certificate.specs.ParamsView.{ParamsView, params_view};
ghost use Rattle.rcgen_certificate.specs.Requests.{AreAttributes, AreValues, IsExtensionRequest, IsInfo, RefusesRequest, RequestExists, Requests};
ghost use Rattle.rcgen_certificate.specs.Requests.{attribute_value, first_request_cause, given_of, has_attribute_type, has_values, request_rows, values_of};
ghost use Rattle.rcgen_certificate.specs.Signed.{FitsOnce};
ghost use Rattle.rcgen_certificate.specs.contracts.csr.AttributePartialEq.TheImpl.{ghosts as equality};
ghost use Rattle.rcgen_certificate.specs.declared.csr.Attribute.{Attribute};

use crate::causes::all_oids_valid;
use crate::extensions::{has_no_place, requested_extensions};
use crate::name_value::name_value;
use crate::params::CertificateParams;
use crate::signing::sign_der;
use crate::subject_alt_name::names_are_ascii;
use crate::value::{identifier_from_u64, key_value};
use asn1_core::{OctetString, TryClone, valid_arcs};
use der_tree::{Any, SetOf, der};
use pkix_cert::{CertificationRequestInfo, Extensions, Version};
use rcgen_sign::{PublicKeyData, SigningKey, memory_only};
use rcgen_text::Error;
use std::alloc::{AllocError, Global};
use std::marker::Model;

const EXTENSION_REQUEST: &[u64] = &[1, 2, 840, 113549, 1, 9, 14];

/// An attribute of a request (RFC 2986, 4.1).
#[derive(Debug, Drop, PartialEq, Eq, Hash)]
pub struct Attribute {
    /// The arcs of its type.
    pub oid: Vec<u64>,
    /// The DER of the set of its values, of which there is to be at least one.
    pub values: Vec<u8>,
}

// no `TryClone`: a copied `Vec` may have another capacity
impl Clone for Attribute {
    ghost is_clone = { λ x y. given_of y ≡ given_of x };

    fn clone(&self) -> Result<Attribute, AllocError> {
        let oid = Vec::from_slice(*self.oid.allocator(), self.oid.as_slice())?;
        let values = Vec::from_slice(*self.values.allocator(), self.values.as_slice())?;
        Ok(Attribute { oid, values })
    }
}

impl Attribute {
    /// The same attribute.
    #[tactic(auto, using(crate::proofs::Requests::attributes_equal))]
    pub fn try_clone(&self, _alloc: Global) -> Result<Attribute, asn1_core::OutOfMemory>
        ensures given { IfOk result (λ copy. given_of copy ≡ given_of self.now) }
        ensures equal { IfOk result (λ copy. equality.eq copy self.now ≡ true) }
    {
        Ok(self.clone()?)
    }
}

/// A request that was written.
#[derive(Clone, Debug, PartialEq, Eq, Drop)]
pub struct CertificateSigningRequest {
    der: OctetString,
}

impl Model for CertificateSigningRequest {
    ghost use Rattle.std.specs.Prelude.{ℕ, List};

    ghost Value = { List ℕ };

    ghost view = { λ c. c.der };

    ghost inverse = { λ b. record { der = b } };
}

impl CertificateSigningRequest {
    /// The request's DER.
    pub fn der(&self) -> &[u8]
        ensures { result.now ≡ self.now }
    {
        self.der.as_slice()
    }

    /// The request's DER.
    pub fn into_der(self) -> Vec<u8>
        ensures { result.items ≡ self }
    {
        self.der.into_vec()
    }
}

impl TryClone for CertificateSigningRequest {
    ghost copies_are_equal = { Prim.search rules };
}

/// A law: the values of an attribute are those of which its octets are the form, as a set.
pub fn attribute_values_exactly()
    ensures { (octets : List ℕ) (values : List (List ℕ)) → (values_of octets ≡ Some values) ↔ AreValues octets values }
{}

/// A law: where there is no cause against it, what the table of requests asks for exists, unless a
/// part of it or its form would be 2^64 octets or more.
pub fn request_exists(params: &CertificateParams, attrs: &[Attribute])
    ensures { first_request_cause (params_view params.now) attrs.now ≡ None → RequestExists (params_view params.now) attrs.now }
{
    names_are_ascii(&params.subject_alt_names);
}

/// A law: what is signed for parameters, a subject's key and attributes is one value.
pub fn request_info_once()
    ensures { (params : ParamsView) (subject : Key) (attrs : List Attribute) (i j : CertificationRequestInfo)
        → IsInfo params subject attrs i → IsInfo params subject attrs j → i ≡ j }
{}

/// A law: where one signature alone of the subject's key fits each message, the DER of the request
/// is the same octets each time.
pub fn requested_once<S: SigningKey>()
    ensures { (key : S) → FitsOnce (S.fits key) → (params : ParamsView) (subject : Key) (attrs : List Attribute) (a b : List ℕ)
        → Requests params subject attrs (S.fits key) a → Requests params subject attrs (S.fits key) b → a ≡ b }
{}

/// The set, where it isn't empty.
fn unless_empty(values: SetOf<Any>) -> Option<SetOf<Any>>
    ensures { result ≡ unless_empty values }
{
    if values.as_slice().is_empty() {
        None
    } else {
        Some(values)
    }
}

/// The values of an attribute; `None` where the octets aren't a set of at least one.
#[tactic(auto, unfolding(crate::specs::Requests::values_of))]
fn values_of(alloc: Global, octets: &[u8]) -> Result<Option<SetOf<Any>>, Error>
    ensures value { IfOk result (λ v. v ≡ values_of octets.now) }
    ensures memory { IfErr result (λ e. e ≡ OutOfMemory) }
{
    match der::value_of(alloc, octets)? {
        Some(values) => Ok(unless_empty(values)),
        None => Ok(None),
    }
}

/// The attribute that is given. `InvalidAttributeValues` where its octets aren't a set of values.
#[tactic(auto, unfolding(pkix_name::specs::Names::attribute_fields))]
pub fn attribute_value(alloc: Global, given: &Attribute) -> Result<pkix_cert::Attribute, Error>
    requires { has_attribute_type given.now ≡ true }
    ensures value { IfOk result (λ a. a ≡ attribute_value given.now) }
    ensures formed { IfOk result (HasTree attribute_codec) }
    ensures ok { OnOk result (has_values given.now ≡ true) }
    ensures why { IfErr result (λ e. Explains (when (not (has_values given.now)) attribute_values) ⊥ (origin_of e)) }
{
    let Some(values) = values_of(alloc, given.values.as_slice())? else {
        return Err(Error::InvalidAttributeValues);
    };
    let attr_type = identifier_from_u64(alloc, given.oid.as_slice())?;
    Ok(pkix_cert::Attribute { attr_type, values })
}

/// The attributes that are given, as a set. `InvalidAttributeValues` where the octets of one are no
/// set of values.
#[tactic(auto, using(crate::proofs::Rows::taken))]
fn given_attributes(
    alloc: Global,
    given: &[Attribute],
) -> Result<SetOf<pkix_cert::Attribute>, Error>
    requires { list_all has_attribute_type given.now ≡ true }
    ensures each { IfOk result (IsPermutation (map attribute_value given.now)) }
    ensures ok { OnOk result (list_all has_values given.now ≡ true) }
    ensures why { IfErr result (λ e. Explains (when (not (list_all has_values given.now)) attribute_values) ⊥ (origin_of e)) }
{
    let mut set = SetOf::new(alloc);
    for attribute in given {
        memory_only(set.insert(attribute_value(alloc, attribute)?))?;
    }
    Ok(set)
}

/// The set of one value.
#[tactic(auto, unfolding(der_tree::specs::SetOf::inserted))]
fn only_value(alloc: Global, value: Any) -> Result<SetOf<Any>, Error>
    requires { is_one value ≡ true }
    ensures value { IfOk result (λ s. s ≡ value ∷ []) }
    ensures memory { IfErr result (λ e. e ≡ OutOfMemory) }
{
    let mut values = SetOf::new(alloc);
    memory_only(values.insert(value))?;
    Ok(values)
}

/// The attribute that asks for the extensions (RFC 2985, 5.4.2).
#[tactic(auto, unfolding(pkix_name::specs::Names::attribute_fields))]
fn extension_request(alloc: Global, asked: &Extensions) -> Result<pkix_cert::Attribute, Error>
    requires { HasTree extensions_codec asked.now }
    ensures value { IfOk result (IsExtensionRequest asked.now) }
    ensures formed { IfOk result (HasTree attribute_codec) }
    ensures memory { IfErr result (λ e. e ≡ OutOfMemory) }
{
    let value = memory_only(der::encode(alloc, asked))?;
    let values = only_value(alloc, Any::new(value))?;
    let attr_type = identifier_from_u64(alloc, EXTENSION_REQUEST)?;
    Ok(pkix_cert::Attribute { attr_type, values })
}

/// The attributes for the parameters, with those that are given. `InvalidAttributeValues` where the
/// octets of one of these aren't a set of values.
fn attributes(
    alloc: Global,
    params: &CertificateParams,
    given: &[Attribute],
) -> Result<SetOf<pkix_cert::Attribute>, Error>
    requires named { all_oids_valid (params_view params.now) ≡ true }
    requires types { list_all has_attribute_type given.now ≡ true }
    ensures value { IfOk result (AreAttributes (request_rows (params_view params.now)) given.now) }
    ensures ok { OnOk result (list_all has_values given.now ≡ true) }
    ensures why { IfErr result (λ e. Explains (when (not (list_all has_values given.now)) attribute_values) ⊥ (origin_of e)) }
{
    let mut set = given_attributes(alloc, given)?;
    let Some(asked) = requested_extensions(alloc, params)? else {
        return Ok(set);
    };
    memory_only(set.insert(extension_request(alloc, &asked)?))?;
    let _ordered = set.as_slice();
    Ok(set)
}

/// Whether the type of each attribute is an object identifier.
pub fn have_attribute_types(given: &[Attribute]) -> bool
    ensures { result ≡ list_all has_attribute_type given.now }
{
    given
        .iter()
        .all(|attribute| valid_arcs(attribute.oid.as_slice()))
}

/// Answers the first cause why nothing is requested for the parameters with these attributes, but
/// for the values of attributes.
fn refuse_causes(params: &CertificateParams, attrs: &[Attribute]) -> Result<(), Error>
    ensures place { OnOk result (has_no_place (params_view params.now) ≡ false) }
    ensures named { OnOk result (all_oids_valid (params_view params.now) ≡ true) }
    ensures types { OnOk result (list_all has_attribute_type attrs.now ≡ true) }
    ensures why { IfErr result (λ e. Explains (first_request_cause (params_view params.now) attrs.now) ⊥ (origin_of e)) }
{
    // RFC 2986, 4.1
    if has_no_place(params) {
        return Err(Error::UnsupportedInCsr);
    }
    // X.660, 7.6
    if !(all_oids_valid(params) && have_attribute_types(attrs)) {
        return Err(Error::InvalidObjectIdentifier);
    }
    Ok(())
}

/// The attributes for the parameters, with those that are given, where there is no cause against
/// them.
#[tactic(auto, using(crate::proofs::Requests::no_cause))]
fn requested_attributes(
    alloc: Global,
    params: &CertificateParams,
    given: &[Attribute],
) -> Result<SetOf<pkix_cert::Attribute>, Error>
    ensures value { IfOk result (AreAttributes (request_rows (params_view params.now)) given.now) }
    ensures named { OnOk result (all_oids_valid (params_view params.now) ≡ true) }
    ensures ok { OnOk result (first_request_cause (params_view params.now) given.now ≡ None) }
    ensures why { IfErr result (λ e. Explains (first_request_cause (params_view params.now) given.now) ⊥ (origin_of e)) }
{
    refuse_causes(params, given)?;
    let set = attributes(alloc, params, given)?;
    Ok(set)
}

/// What the subject's key signs for the request that `CertificateParams::serialize_request_with_attributes`
/// writes (RFC 2986, 4.2). Refused as that is, but never by the key.
#[tactic(auto, unfolding(pkix_cert::specs::Requests::certification_request_info_fields))]
pub fn request_info<K: PublicKeyData>(
    alloc: Global,
    params: &CertificateParams,
    subject_key: &K,
    attrs: &[Attribute],
) -> Result<CertificationRequestInfo, Error>
    ensures value { IfOk result (IsInfo (params_view params.now) (K.key subject_key.now) attrs.now) }
    ensures formed { IfOk result (HasTree info_codec) }
    ensures ok { OnOk result (first_request_cause (params_view params.now) attrs.now ≡ None) }
    ensures why { IfErr result (λ e. Explains (first_request_cause (params_view params.now) attrs.now) ⊥ (origin_of e)) }
{
    let attributes = requested_attributes(alloc, params, attrs)?;
    let subject = name_value(alloc, &params.distinguished_name)?;
    let key = subject_key.der_bytes();
    let subject_public_key_info = key_value(alloc, subject_key.algorithm(), key)?;
    Ok(CertificationRequestInfo {
        version: Version::V1,
        subject,
        subject_public_key_info,
        attributes,
    })
}

impl CertificateParams {
    /// The request for a certificate of the subject's key, signed by it, without attributes beside
    /// that which asks for extensions.
    pub fn serialize_request<S: SigningKey>(
        &self,
        alloc: Global,
        subject_key: &S,
    ) -> Result<CertificateSigningRequest, Error>
        ensures requested { IfOk result (Requests (params_view self.now) (S.key subject_key.now) [] (S.fits subject_key.now)) }
        ensures ok { OnOk result (first_request_cause (params_view self.now) [] ≡ None) }
        ensures why { IfErr result (λ e. Explains (first_request_cause (params_view self.now) [])
            (RefusesRequest (params_view self.now) (S.key subject_key.now) [] (S.may_refuse subject_key.now)) (origin_of e)) }
    {
        self.serialize_request_with_attributes(alloc, subject_key, Vec::new(alloc))
    }

    /// The request for a certificate of the subject's key, signed by it: key usage, alternative
    /// names, purposes, basic constraints and the given extensions are asked for, and the attributes
    /// accompany them. `UnsupportedInCsr` where something is asked for that has no place in a
    /// request, as a serial number, name constraints, a distribution point or the identifier of the
    /// issuer's key, else `InvalidObjectIdentifier` where a type of the name or of an other name, a
    /// purpose or the arcs of a given extension or of an attribute are none, else
    /// `InvalidAttributeValues` where the values of an attribute aren't the DER of a set of at least
    /// one. `RemoteKeyError` only where none of these is so and the key may refuse what is to be
    /// signed.
    pub fn serialize_request_with_attributes<S: SigningKey>(
        &self,
        alloc: Global,
        subject_key: &S,
        attrs: Vec<Attribute>,
    ) -> Result<CertificateSigningRequest, Error>
        ensures requested { IfOk result (Requests (params_view self.now) (S.key subject_key.now) attrs.items (S.fits subject_key.now)) }
        ensures ok { OnOk result (first_request_cause (params_view self.now) attrs.items ≡ None) }
        ensures why { IfErr result (λ e. Explains (first_request_cause (params_view self.now) attrs.items)
            (RefusesRequest (params_view self.now) (S.key subject_key.now) attrs.items (S.may_refuse subject_key.now)) (origin_of e)) }
    {
        let info = request_info(alloc, self, subject_key, &attrs)?;
        let der = sign_der(alloc, subject_key, info)?;
        Ok(CertificateSigningRequest {
            der: OctetString::new(der),
        })
    }
}
