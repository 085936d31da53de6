//! Certificates beside what they are issued for: the issuer that they certify, or the key.
ghost use Rattle.std.specs.Prelude.{◌≡◌, ℕ, List, None, IfOk, IfErr, OnOk, map, string_bytes};
ghost use Rattle.std.specs.List.{AllByRecursion};
ghost use Rattle.rcgen_text.specs.Causes.{Explains, origin_of};
ghost use Rattle.rcgen_sign.specs.KeyIds.{method_of};
ghost use Rattle.rcgen_certificate.specs.Issue.{first_cause, Issues, Refuses};
ghost use Rattle.rcgen_certificate.specs.Issuers.{id_method_of, issuer_field_of, key_of, name_of, own_view, usages_of, view_of};
ghost use Rattle.rcgen_certificate.specs.NameValues.{issuer_name};
ghost use Rattle.rcgen_certificate.specs.Params.{HasName};
ghost use Rattle.rcgen_certificate.specs.ParamsView.{params_view};
ghost use Rattle.rcgen_issue.specs.Certified.{der_of, issuer_of, AreDefaultsFor, ExplainsSelfSigned, IssuesSelfSigned, MayRefuseSelfSigned};

use asn1_core::has_utc_exactly;
use rcgen_certificate::{Certificate, CertificateParams, Issuer};
use rcgen_sign::SigningKey;
use rcgen_text::Error;
use std::alloc::Global;
use std::fmt;
use std::ops::Deref;

/// An issuer and its certificate.
#[derive(Drop)]
pub struct CertifiedIssuer<S> {
    certificate: Certificate,
    issuer: Issuer<'static, S>,
}

impl<S: SigningKey + Drop> CertifiedIssuer<S> {
    /// The issuer that `Issuer::new` makes of these parameters and this key, with the certificate
    /// that the key signs for itself (RFC 5280, 4.1). Refused as `CertificateParams::self_signed`
    /// is.
    pub fn self_signed(
        alloc: Global,
        params: CertificateParams,
        signing_key: S,
    ) -> Result<Self, Error>
        ensures issued { let key = S.key signing_key in
            IfOk result (λ c. Issues (params_view params) key (own_view (params_view params) key) (S.fits signing_key) (der_of c)) }
        ensures name { IfOk result (λ c. name_of (issuer_of c) ≡ params.distinguished_name) }
        ensures field { IfOk result (λ c. issuer_field_of (issuer_of c) ≡ issuer_name params.distinguished_name) }
        ensures method { IfOk result (λ c. id_method_of (issuer_of c) ≡ method_of params.key_identifier_method) }
        ensures usages { IfOk result (λ c. usages_of (issuer_of c) ≡ params.key_usages.items) }
        ensures key { IfOk result (λ c. key_of (issuer_of c) ≡ signing_key) }
        ensures ok { OnOk result (first_cause (params_view params) (issuer_name params.distinguished_name) ≡ None) }
        ensures why { let key = S.key signing_key in
            IfErr result (λ e. Explains (first_cause (params_view params) (issuer_name params.distinguished_name))
            (Refuses (params_view params) key (own_view (params_view params) key) (S.may_refuse signing_key)) (origin_of e)) }
    {
        let certificate = params.self_signed(alloc, &signing_key)?;
        Ok(CertifiedIssuer {
            certificate,
            issuer: Issuer::new(params, signing_key),
        })
    }

    /// The issuer that `Issuer::new` makes of these parameters and this key, with the certificate
    /// that the given issuer signs for the key (RFC 5280, 4.1). Refused as
    /// `CertificateParams::signed_by` is.
    pub fn signed_by<T: SigningKey>(
        alloc: Global,
        params: CertificateParams,
        signing_key: S,
        issuer: &Issuer<'_, T>,
    ) -> Result<Self, Error>
        ensures issued { IfOk result (λ c. Issues (params_view params) (S.key signing_key) (view_of T.key issuer.now) (T.fits (key_of issuer.now)) (der_of c)) }
        ensures name { IfOk result (λ c. name_of (issuer_of c) ≡ params.distinguished_name) }
        ensures field { IfOk result (λ c. issuer_field_of (issuer_of c) ≡ issuer_name params.distinguished_name) }
        ensures method { IfOk result (λ c. id_method_of (issuer_of c) ≡ method_of params.key_identifier_method) }
        ensures usages { IfOk result (λ c. usages_of (issuer_of c) ≡ params.key_usages.items) }
        ensures key { IfOk result (λ c. key_of (issuer_of c) ≡ signing_key) }
        ensures ok { OnOk result (first_cause (params_view params) (view_of T.key issuer.now).name ≡ None) }
        ensures why { IfErr result (λ e. Explains (first_cause (params_view params) (view_of T.key issuer.now).name)
            (Refuses (params_view params) (S.key signing_key) (view_of T.key issuer.now) (T.may_refuse (key_of issuer.now))) (origin_of e)) }
    {
        let certificate = params.signed_by(alloc, &signing_key, issuer)?;
        Ok(CertifiedIssuer {
            certificate,
            issuer: Issuer::new(params, signing_key),
        })
    }
}

impl<S> CertifiedIssuer<S> {
    /// The certificate's DER.
    pub fn der(&self) -> &[u8]
        ensures { result.now ≡ der_of self.now }
    {
        self.certificate.der()
    }

    /// The certificate.
    pub fn certificate(&self) -> &Certificate
        ensures { result.now ≡ der_of self.now }
    {
        &self.certificate
    }

    /// The issuer.
    pub fn issuer(&self) -> &Issuer<'static, S>
        ensures { result.now ≡ issuer_of self.now }
    {
        &self.issuer
    }
}

impl<S> Deref for CertifiedIssuer<S> {
    type Target = Issuer<'static, S>;

    ghost deref_gives = { λ c issuer. issuer ≡ issuer_of c };

    fn deref(&self) -> &Issuer<'static, S> {
        &self.issuer
    }
}

// the issuer leaves its key out
impl<S> fmt::Debug for CertifiedIssuer<S> {
    fn fmt<W: fmt::Write>(&self, f: &mut fmt::Formatter<W>) -> fmt::Result {
        f.debug_struct("CertifiedIssuer")
            .field("certificate", &self.certificate)
            .field("issuer", &self.issuer)
            .finish()
    }
}

/// A certificate and the key that it is for, which signs. It has no debug text, since the key may
/// hold a secret.
#[derive(PartialEq, Eq, Drop)]
pub struct CertifiedKey<S> {
    pub cert: Certificate,
    pub signing_key: S,
}

/// A law: there is no cause against default parameters with the names of texts, issued under their
/// own name.
fn defaults_have_no_cause(params: &CertificateParams)
    ensures { (texts : List (List ℕ)) → AreDefaultsFor texts params.now
        → first_cause (params_view params.now) (issuer_name params.now.distinguished_name) ≡ None }
{
    has_utc_exactly(&params.not_before);
    has_utc_exactly(&params.not_after);
}

/// The certificate that the key signs for itself, of the default parameters with these alternative
/// names, in order: each text that is an IP address is one, and any other is a DNS name (RFC 5280,
/// 4.2.1.6). `InvalidAsn1String` with the first text that is neither an address nor ASCII.
/// `RemoteKeyError` only where there is no such text and the key may refuse what is to be signed.
pub fn generate_simple_self_signed<S: SigningKey + Drop>(
    alloc: Global,
    names: Vec<String>,
    signing_key: S,
) -> Result<CertifiedKey<S>, Error>
    ensures issued { let texts = map string_bytes names.items in
        IfOk result (λ c. IssuesSelfSigned texts (S.key signing_key) (S.fits signing_key) c.cert) }
    ensures key { IfOk result (λ c. c.signing_key ≡ signing_key) }
    ensures named { OnOk result (AllByRecursion HasName (map string_bytes names.items)) }
    ensures why { let texts = map string_bytes names.items in
        IfErr result (ExplainsSelfSigned texts (MayRefuseSelfSigned texts (S.key signing_key) (S.may_refuse signing_key))) }
{
    let params = CertificateParams::new(alloc, names)?;
    defaults_have_no_cause(&params);
    let cert = params.self_signed(alloc, &signing_key)?;
    Ok(CertifiedKey { cert, signing_key })
}
