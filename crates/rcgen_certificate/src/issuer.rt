ghost use Rattle.std.specs.Prelude.{◌≡◌, ℕ, true, List, Some, is_some, IfOk, IfErr};
ghost use Rattle.der_tree.specs.Form.{IsDerOf};
ghost use Rattle.der_tree.specs.HasTree.{HasTree};
ghost use Rattle.pkix_name.specs.Names.{name as name_codec};
ghost use Rattle.pkix_name.specs.declared.name.Name.{Name};
ghost use Rattle.rcgen_text.specs.declared.error.Error.TheVariants.{OutOfMemory};
ghost use Rattle.rcgen_sign.specs.KeyIds.{method_of};
ghost use Rattle.rcgen_certificate.specs.Issuers.{encodable_name, issuer_field_of, name_of, id_method_of, usages_of, key_of};
ghost use Rattle.rcgen_certificate.specs.NameValues.{issuer_name};

use crate::causes::has_issuer_value;
use crate::name_value::{has_encoding, issuer_value};
use crate::params::CertificateParams;
use asn1_core::TryClone;
use pkix_cert::Name;
use rcgen_sign::{KeyIdMethod, SigningKey};
use rcgen_text::{DistinguishedName, Error, KeyUsagePurpose};
use std::alloc::Global;
use std::borrow::{Cow, CowSlice};
use std::fmt;

/// Who issues: a name, how the identifier of its key is made, what the key is for, and the key,
/// which signs.
#[derive(Drop)]
pub struct Issuer<'a, S> {
    distinguished_name: Cow<'a, DistinguishedName>,
    // it takes the place of the distinguished name in what is issued
    name_as_read: Option<Name>,
    key_identifier_method: Cow<'a, KeyIdMethod>,
    key_usages: CowSlice<'a, KeyUsagePurpose>,
    signing_key: S,
}

impl<S: SigningKey> Issuer<'static, S> {
    /// The issuer that has the name, the method and the key usages of these parameters, which it
    /// takes.
    pub fn new(params: CertificateParams, signing_key: S) -> Issuer<'static, S>
        ensures name { name_of result ≡ params.distinguished_name }
        ensures field { issuer_field_of result ≡ issuer_name params.distinguished_name }
        ensures method { id_method_of result ≡ method_of params.key_identifier_method }
        ensures usages { usages_of result ≡ params.key_usages.items }
        ensures key { key_of result ≡ signing_key }
    {
        Issuer {
            distinguished_name: Cow::Owned(params.distinguished_name),
            name_as_read: None,
            key_identifier_method: Cow::Owned(params.key_identifier_method),
            key_usages: CowSlice::Owned(params.key_usages),
            signing_key,
        }
    }

    /// The issuer of these parts.
    pub fn from_parts(
        name: DistinguishedName,
        method: KeyIdMethod,
        usages: Vec<KeyUsagePurpose>,
        signing_key: S,
    ) -> Issuer<'static, S>
        ensures name { name_of result ≡ name }
        ensures field { issuer_field_of result ≡ issuer_name name }
        ensures method { id_method_of result ≡ method_of method }
        ensures usages { usages_of result ≡ usages.items }
        ensures key { key_of result ≡ signing_key }
    {
        Issuer {
            distinguished_name: Cow::Owned(name),
            name_as_read: None,
            key_identifier_method: Cow::Owned(method),
            key_usages: CowSlice::Owned(usages),
            signing_key,
        }
    }
}

impl<'a, S: SigningKey> Issuer<'a, S> {
    /// The issuer that has the name, the method and the key usages of these parameters, which it
    /// borrows.
    pub fn from_params(params: &'a CertificateParams, signing_key: S) -> Issuer<'a, S>
        ensures name { name_of result ≡ params.now.distinguished_name }
        ensures field { issuer_field_of result ≡ issuer_name params.now.distinguished_name }
        ensures method { id_method_of result ≡ method_of params.now.key_identifier_method }
        ensures usages { usages_of result ≡ params.now.key_usages.items }
        ensures key { key_of result ≡ signing_key }
    {
        Issuer {
            distinguished_name: Cow::Borrowed(&params.distinguished_name),
            name_as_read: None,
            key_identifier_method: Cow::Borrowed(&params.key_identifier_method),
            key_usages: CowSlice::Borrowed(params.key_usages.as_slice()),
            signing_key,
        }
    }

    /// The same issuer under this very name, as it was read from a certificate: it is unchanged in
    /// the issuer field of all that the issuer issues from now on, in place of the distinguished name.
    /// A name that was decoded can be written there (`decoded_name_stands`). One in which a part has no
    /// attribute can't, and what is to be issued is refused with `InvalidObjectIdentifier`, as for a
    /// distinguished name whose types are no object identifiers.
    pub fn with_name(self, name: Name) -> Issuer<'a, S>
        ensures field { issuer_field_of result ≡ encodable_name name }
        ensures name { name_of result ≡ name_of self.entry }
        ensures method { id_method_of result ≡ id_method_of self.entry }
        ensures usages { usages_of result ≡ usages_of self.entry }
        ensures key { key_of result ≡ key_of self.entry }
    {
        Issuer {
            distinguished_name: self.distinguished_name,
            name_as_read: Some(name),
            key_identifier_method: self.key_identifier_method,
            key_usages: self.key_usages,
            signing_key: self.signing_key,
        }
    }

    /// The name of which the issuer was made. It isn't the one in what is issued after `with_name`.
    pub fn distinguished_name(&self) -> &DistinguishedName
        ensures { result.now ≡ name_of self.now }
    {
        self.distinguished_name.as_ref()
    }

    /// Whether its name can be written in an issuer field (RFC 5280, 4.1.2.4).
    #[tactic(auto, using(crate::proofs::IssuerNames::encodable))]
    pub fn has_issuer_field(&self) -> bool
        ensures { result ≡ is_some (issuer_field_of self.now) }
    {
        match &self.name_as_read {
            Some(name) => has_encoding(name),
            None => has_issuer_value(self.distinguished_name()),
        }
    }

    /// The value of the issuer field in what it issues (RFC 5280, 4.1.2.4).
    #[tactic(auto, using(crate::proofs::IssuerNames::encodable))]
    pub fn issuer_field(&self, alloc: Global) -> Result<Name, Error>
        requires { is_some (issuer_field_of self.now) ≡ true }
        ensures value { IfOk result (λ name. issuer_field_of self.now ≡ Some name) }
        ensures formed { IfOk result (HasTree name_codec) }
        ensures memory { IfErr result (λ e. e ≡ OutOfMemory) }
    {
        match &self.name_as_read {
            Some(name) => Ok(name.try_clone(alloc)?),
            None => issuer_value(alloc, self.distinguished_name()),
        }
    }

    /// How the identifier of its key is made.
    pub fn key_identifier_method(&self) -> &KeyIdMethod
        ensures { method_of result.now ≡ id_method_of self.now }
    {
        self.key_identifier_method.as_ref()
    }

    /// What its key is for; without a purpose it is for all.
    pub fn key_usages(&self) -> &[KeyUsagePurpose]
        ensures { result.now ≡ usages_of self.now }
    {
        self.key_usages.as_slice()
    }

    /// The key.
    pub fn key(&self) -> &S
        ensures { result.now ≡ key_of self.now }
    {
        &self.signing_key
    }
}

/// A law: a name with a DER encoding, as each that was decoded, is unchanged in issuer fields.
pub fn decoded_name_stands()
    ensures { (name : Name) (der : List ℕ) → IsDerOf name_codec name der → encodable_name name ≡ Some name }
{}

// the key is left out, since it may hold a secret
impl<S> fmt::Debug for Issuer<'_, S> {
    fn fmt<W: fmt::Write>(&self, f: &mut fmt::Formatter<W>) -> fmt::Result {
        f.debug_struct("Issuer")
            .field("distinguished_name", &self.distinguished_name)
            .field("key_identifier_method", &self.key_identifier_method)
            .field("key_usages", &self.key_usages)
            .finish_non_exhaustive()
    }
}
