//! Lists of revoked certificates.
ghost use Rattle.std.specs.Prelude.{◌≡◌, true, None, IfOk, IfErr, OnOk, map};
ghost use Rattle.std.specs.List.{AllZip, list_all};
ghost use Rattle.std.specs.Option.{IfSome, option_copied, option_map};
ghost use Rattle.std.proofs.Common.{rules};
ghost use Rattle.asn1_core.specs.Moment.{has_utc, instant};
ghost use Rattle.der_tree.specs.HasTree.{HasTree};
ghost use Rattle.der_tree.specs.PrimitiveTypes.{generalized_time};
ghost use Rattle.pkix_cert.specs.Extensions.{extensions};
ghost use Rattle.pkix_cert.specs.Revocations.{crl_reason, revoked_certificate, tbs_cert_list};
ghost use Rattle.rcgen_text.specs.Causes.{Explains, origin_of};
ghost use Rattle.rcgen_text.specs.declared.error.Error.TheVariants.{OutOfMemory as NoMemory};
ghost use Rattle.rcgen_sign.specs.KeyIds.{method_of};
ghost use Rattle.rcgen_certificate.specs.AsciiTexts.{first_not_ascii, is_ascii};
ghost use Rattle.rcgen_certificate.specs.DistributionPoints.{uris_of};
ghost use Rattle.rcgen_issue.specs.CrlView.{crl_view, point_of, revoked_view};
ghost use Rattle.rcgen_issue.specs.Entries.{entry_extension_rows, written_reason, IsEntry, IsGeneralMoment, IsInvalidityDate};
ghost use Rattle.rcgen_certificate.specs.ExtensionRows.{IsField};
ghost use Rattle.rcgen_certificate.specs.Issuers.{key_of, view_of};
ghost use Rattle.rcgen_certificate.specs.KeyIdentifiers.{authority_key};
ghost use Rattle.rcgen_issue.specs.Lists.{first_crl_cause, has_entry_times, has_list_times, has_no_uri, is_utc_if, issuing_point_value, issuing_uris, crl_extension_rows, crl_key_id, without_entries};
ghost use Rattle.rcgen_issue.specs.Lists.{HasNoCrlCause, IsCrlToBeSigned, IssuesCrl, RefusesCrl, SaysSameCrl};
ghost use Rattle.rcgen_issue.specs.contracts.crl.CertificateRevocationListParamsPartialEq.TheImpl.{ghosts as equality};
ghost use Rattle.rcgen_issue.specs.contracts.crl.CrlIssuingDistributionPointPartialEq.TheImpl.{ghosts as point_equality};

use asn1_core::{
    GeneralizedTime, Integer, OctetString, OffsetDateTime, OutOfMemory, TryClone, whole_seconds,
};
use der_tree::SequenceOf;
use pkix_cert::extension_id::{
    ID_CE_AUTHORITY_KEY_IDENTIFIER, ID_CE_CRL_NUMBER, ID_CE_CRL_REASONS, ID_CE_INVALIDITY_DATE,
    ID_CE_ISSUING_DISTRIBUTION_POINT,
};
use pkix_cert::{
    AuthorityKeyIdentifier, CrlReason, Extensions, IssuingDistributionPoint, RevokedCertificate,
    TbsCertList, Version,
};
use rcgen_certificate::{
    CrlDistributionPoint, Issuer, authority_key, extensions_field, first_uri_not_ascii, full_name,
    key_id, not_ascii_error, push_extension, sign_der, signature_identifier, signs_lists,
    written_moment,
};
use rcgen_sign::{KeyIdMethod, SigningKey};
use rcgen_text::{CrlScope, Error, RevocationReason, SerialNumber};
use std::alloc::Global;
use std::marker::Model;

/// A signed list of revoked certificates.
#[derive(Clone, Debug, PartialEq, Eq, Drop)]
pub struct CertificateRevocationList {
    der: OctetString,
}

impl Model for CertificateRevocationList {
    ghost use Rattle.std.specs.Prelude.{ℕ, List};

    ghost Value = { List ℕ };

    ghost view = { λ c. c.der };

    ghost inverse = { λ b. record { der = b } };
}

impl CertificateRevocationList {
    /// The list's DER.
    pub fn der(&self) -> &[u8]
        ensures { result.now ≡ self.now }
    {
        self.der.as_slice()
    }

    /// The list's DER.
    pub fn into_der(self) -> Vec<u8>
        ensures { result.items ≡ self }
    {
        self.der.into_vec()
    }
}

impl TryClone for CertificateRevocationList {
    ghost copies_are_equal = { Prim.search rules };
}

/// Where a list is found, and what it is of (RFC 5280, 5.2.5).
#[derive(Clone, Debug, PartialEq, Eq, Drop)]
pub struct CrlIssuingDistributionPoint {
    pub distribution_point: CrlDistributionPoint,
    /// Without one the list is of all certificates.
    pub scope: Option<CrlScope>,
}

// no `TryClone`: a copied `String` may have another capacity
impl CrlIssuingDistributionPoint {
    /// A point that says the same.
    #[tactic(auto, using(crate::proofs::Lists::copies))]
    pub fn try_clone(&self, _alloc: Global) -> Result<CrlIssuingDistributionPoint, OutOfMemory>
        ensures point { IfOk result (λ copy. point_of copy ≡ point_of self.now) }
        ensures equal { IfOk result (λ copy. point_equality.eq copy self.now ≡ true) }
    {
        Ok(self.clone()?)
    }
}

/// An entry of a list (RFC 5280, 5.1.2.6 and 5.3).
#[derive(Clone, Debug, PartialEq, Eq, Drop)]
pub struct RevokedCertParams {
    /// Of the certificate that was revoked.
    pub serial_number: SerialNumber,
    pub revocation_time: OffsetDateTime,
    pub reason_code: Option<RevocationReason>,
    /// Since when the certificate was no longer to be trusted.
    pub invalidity_date: Option<OffsetDateTime>,
}

impl TryClone for RevokedCertParams {
    ghost copies_are_equal = { Prim.search rules };
}

/// Parameters of a list of revoked certificates. Times are equal where they are the same instant.
#[derive(Clone, Debug, PartialEq, Eq, Drop)]
pub struct CertificateRevocationListParams {
    /// When the list is issued.
    pub this_update: OffsetDateTime,
    /// When the next list is issued at the latest: a later instant than `this_update`.
    pub next_update: OffsetDateTime,
    pub crl_number: SerialNumber,
    pub issuing_distribution_point: Option<CrlIssuingDistributionPoint>,
    /// The entries, in the order of the list.
    pub revoked_certs: Vec<RevokedCertParams>,
    /// How the identifier of the issuer's key is made in the list; None where it is made as the
    /// issuer makes it.
    pub key_identifier_method: Option<KeyIdMethod>,
}

impl CertificateRevocationListParams {
    /// The list, with the name of the issuer and signed by its key. `InvalidCrlNextUpdate` where
    /// `next_update` isn't a later instant than `this_update`, else `IssuerNotCrlSigner` where the
    /// issuer has key usages and `CrlSign` isn't among them, else `EmptyCrlDistributionPointUris`
    /// where the issuing point has no URI, else `Time` where a time has no form in UTC, else
    /// `InvalidObjectIdentifier` where a type of the issuer's name is none, else
    /// `InvalidAsn1String` with the first URI of the issuing point that isn't ASCII.
    /// `RemoteKeyError` only where none of these is so and the issuer's key may refuse what is to be
    /// signed.
    pub fn signed_by<S: SigningKey>(
        &self,
        alloc: Global,
        issuer: &Issuer<'_, S>,
    ) -> Result<CertificateRevocationList, Error>
        ensures issued { IfOk result (IssuesCrl (crl_view self.now) (view_of S.key issuer.now) (S.fits (key_of issuer.now))) }
        ensures ok { OnOk result (first_crl_cause (crl_view self.now) (view_of S.key issuer.now) ≡ None) }
        ensures why { IfErr result (λ e. Explains (first_crl_cause (crl_view self.now) (view_of S.key issuer.now))
            (RefusesCrl (crl_view self.now) (view_of S.key issuer.now) (S.may_refuse (key_of issuer.now))) (origin_of e)) }
    {
        let tbs_cert_list = list_to_be_signed(alloc, self, issuer)?;
        let der = sign_der(alloc, issuer.key(), tbs_cert_list)?;
        Ok(CertificateRevocationList {
            der: OctetString::new(der),
        })
    }
}

// no `TryClone`: a copied `Vec` may have another capacity
impl CertificateRevocationListParams {
    /// Parameters that say the same.
    #[tactic(auto, using(crate::proofs::Equality::params_equal))]
    pub fn try_clone(&self, _alloc: Global) -> Result<CertificateRevocationListParams, OutOfMemory>
        ensures same { IfOk result (SaysSameCrl self.now) }
        ensures equal { IfOk result (λ copy. equality.eq copy self.now ≡ true) }
    {
        let copy = self.copied()?;
        Ok(copy)
    }

    /// Parameters that say the same.
    #[tactic(auto, using(crate::proofs::Lists::copies))]
    fn copied(&self) -> Result<CertificateRevocationListParams, OutOfMemory>
        ensures { IfOk result (SaysSameCrl self.now) }
    {
        Ok(self.clone()?)
    }
}

/// Whether the times of the entry have a form in UTC.
fn has_entry_times(entry: &RevokedCertParams) -> bool
    ensures { result ≡ has_entry_times (revoked_view entry.now) }
{
    entry.revocation_time.utc().is_some()
        && match entry.invalidity_date {
            Some(date) => date.utc().is_some(),
            None => true,
        }
}

fn have_entry_times(entries: &[RevokedCertParams]) -> bool
    ensures { result ≡ list_all (λ e. has_entry_times (revoked_view e)) entries.now }
{
    entries.iter().all(|entry| has_entry_times(entry))
}

/// Whether all times of the list have a form in UTC.
#[tactic(auto, using(crate::proofs::Lists::tests))]
fn has_list_times(params: &CertificateRevocationListParams) -> bool
    ensures { result ≡ has_list_times (crl_view params.now) }
{
    params.this_update.utc().is_some()
        && params.next_update.utc().is_some()
        && have_entry_times(&params.revoked_certs)
}

/// Whether there is an issuing point, and it has no URI.
#[tactic(auto, using(crate::proofs::Lists::tests))]
fn has_no_uri(point: Option<&CrlIssuingDistributionPoint>) -> bool
    ensures { result ≡ has_no_uri (option_map point_of (option_copied point.entry)) }
{
    match point {
        Some(point) => point.distribution_point.uris.is_empty(),
        None => false,
    }
}

/// The first URI of the issuing point that isn't ASCII.
fn first_of_issuing_point(point: Option<&CrlIssuingDistributionPoint>) -> Option<&str>
    ensures { option_copied result ≡ first_not_ascii (issuing_uris (option_map point_of (option_copied point.entry))) }
{
    first_uri_not_ascii(&point?.distribution_point)
}

/// Answers the first cause why nothing is issued for the parameters by the issuer.
fn refuse_first<S: SigningKey>(
    alloc: Global,
    params: &CertificateRevocationListParams,
    issuer: &Issuer<'_, S>,
) -> Result<(), Error>
    ensures ok { OnOk result (first_crl_cause (crl_view params.now) (view_of S.key issuer.now) ≡ None) }
    ensures why { IfErr result (λ e. Explains (first_crl_cause (crl_view params.now) (view_of S.key issuer.now)) ⊥ (origin_of e)) }
{
    // RFC 5280, 5.1.2.5
    if params.next_update <= params.this_update {
        return Err(Error::InvalidCrlNextUpdate);
    }
    // RFC 5280, 4.2.1.3
    if !signs_lists(issuer.key_usages()) {
        return Err(Error::IssuerNotCrlSigner);
    }
    // RFC 5280, 5.2.5
    let point = params.issuing_distribution_point.as_ref();
    if has_no_uri(point) {
        return Err(Error::EmptyCrlDistributionPointUris);
    }
    // RFC 5280, 5.1.2.4 to 5.1.2.6 and 5.3.2
    if !has_list_times(params) {
        return Err(Error::Time);
    }
    // X.660, 7.6
    if !issuer.has_issuer_field() {
        return Err(Error::InvalidObjectIdentifier);
    }
    // RFC 5280, 4.2.1.6
    match first_of_issuing_point(point) {
        Some(text) => Err(not_ascii_error(alloc, text)),
        None => Ok(()),
    }
}

/// Answers the first cause why nothing is issued for the parameters by the issuer. Where there is
/// none, each part is without one.
fn refuse_causes<S: SigningKey>(
    alloc: Global,
    params: &CertificateRevocationListParams,
    issuer: &Issuer<'_, S>,
) -> Result<(), Error>
    ensures ok { OnOk result (first_crl_cause (crl_view params.now) (view_of S.key issuer.now) ≡ None) }
    ensures parts { OnOk result (HasNoCrlCause (crl_view params.now) (view_of S.key issuer.now)) }
    ensures why { IfErr result (λ e. Explains (first_crl_cause (crl_view params.now) (view_of S.key issuer.now)) ⊥ (origin_of e)) }
{
    refuse_first(alloc, params, issuer)?;
    Ok(())
}

/// The reason as it is written; None where it is unspecified (RFC 5280, 5.3.1).
fn written_reason(reason: RevocationReason) -> Option<CrlReason>
    ensures value { result ≡ written_reason reason }
    ensures formed { IfSome result (HasTree crl_reason) }
{
    match reason {
        RevocationReason::Unspecified => None,
        RevocationReason::KeyCompromise => Some(CrlReason::KeyCompromise),
        RevocationReason::CaCompromise => Some(CrlReason::CaCompromise),
        RevocationReason::AffiliationChanged => Some(CrlReason::AffiliationChanged),
        RevocationReason::Superseded => Some(CrlReason::Superseded),
        RevocationReason::CessationOfOperation => Some(CrlReason::CessationOfOperation),
        RevocationReason::CertificateHold => Some(CrlReason::CertificateHold),
        RevocationReason::RemoveFromCrl => Some(CrlReason::RemoveFromCRL),
        RevocationReason::PrivilegeWithdrawn => Some(CrlReason::PrivilegeWithdrawn),
        RevocationReason::AaCompromise => Some(CrlReason::AaCompromise),
    }
}

/// The second in which the moment lies, as a GeneralizedTime in each year.
pub fn general_moment(moment: &OffsetDateTime) -> GeneralizedTime
    requires { has_utc moment.now ≡ true }
    ensures value { IsGeneralMoment moment.now result }
    ensures formed { HasTree generalized_time result }
{
    match moment.utc() {
        Some(at) => GeneralizedTime {
            at: whole_seconds(at),
        },
        None => unreachable!(),
    }
}

/// The invalidity date, where there is one (RFC 5280, 5.3.2).
fn invalidity_date(given: Option<OffsetDateTime>) -> Option<GeneralizedTime>
    requires { is_utc_if (option_map instant given) ≡ true }
    ensures value { IsInvalidityDate (option_map instant given) result }
    ensures formed { IfSome result (HasTree generalized_time) }
{
    match given {
        Some(moment) => Some(general_moment(&moment)),
        None => None,
    }
}

/// The extensions of an entry; `None` where there is no row.
#[tactic(auto, using(rcgen_certificate::proofs::Rows::named))]
fn entry_extensions(
    alloc: Global,
    reason: Option<RevocationReason>,
    date: Option<GeneralizedTime>,
) -> Result<Option<Extensions>, Error>
    requires { IfSome date (HasTree generalized_time) }
    ensures rows { IfOk result (IsField (entry_extension_rows reason date)) }
    ensures formed { IfOk result (λ x. IfSome x (HasTree extensions)) }
    ensures memory { IfErr result (λ e. e ≡ NoMemory) }
{
    let mut list = SequenceOf::new(alloc);
    let reason = match reason {
        Some(reason) => written_reason(reason),
        None => None,
    };
    push_extension(alloc, &mut list, ID_CE_CRL_REASONS, false, reason)?;
    push_extension(alloc, &mut list, ID_CE_INVALIDITY_DATE, false, date)?;
    Ok(extensions_field(list))
}

/// The entry of a revoked certificate.
#[tactic(auto, unfolding(pkix_cert::specs::Revocations::revoked_certificate_fields))]
pub fn entry(alloc: Global, params: &RevokedCertParams) -> Result<RevokedCertificate, Error>
    requires { has_entry_times (revoked_view params.now) ≡ true }
    ensures value { IfOk result (IsEntry (revoked_view params.now)) }
    ensures formed { IfOk result (HasTree revoked_certificate) }
    ensures memory { IfErr result (λ e. e ≡ NoMemory) }
{
    let user_certificate = Integer::from_unsigned(alloc, params.serial_number.as_slice())?;
    let date = invalidity_date(params.invalidity_date);
    let crl_entry_extensions = entry_extensions(alloc, params.reason_code, date)?;
    Ok(RevokedCertificate {
        user_certificate,
        revocation_date: written_moment(&params.revocation_time),
        crl_entry_extensions,
    })
}

/// The entries, in order.
fn entries(
    alloc: Global,
    revoked: &[RevokedCertParams],
) -> Result<SequenceOf<RevokedCertificate>, Error>
    requires { list_all has_entry_times (map revoked_view revoked.now) ≡ true }
    ensures values { IfOk result (AllZip IsEntry (map revoked_view revoked.now)) }
    ensures formed { IfOk result (λ es. list_all revoked_certificate.has_tree es ≡ true) }
    ensures memory { IfErr result (λ e. e ≡ NoMemory) }
{
    let mut list = SequenceOf::new(alloc);
    for params in revoked {
        list.push(entry(alloc, params)?)?;
    }
    Ok(list)
}

/// The issuing point with these URIs and the flag of the scope (RFC 5280, 5.2.5).
fn issuing_point(
    alloc: Global,
    point: &CrlIssuingDistributionPoint,
) -> Result<IssuingDistributionPoint, Error>
    requires { list_all is_ascii (uris_of point.now.distribution_point) ≡ true }
    ensures value { IfOk result (λ p. p ≡ issuing_point_value (point_of point.now)) }
    ensures memory { IfErr result (λ e. e ≡ NoMemory) }
{
    let name = full_name(alloc, &point.distribution_point)?;
    Ok(IssuingDistributionPoint {
        distribution_point: Some(name),
        only_contains_user_certs: matches!(point.scope, Some(CrlScope::UserCertsOnly)),
        only_contains_ca_certs: matches!(point.scope, Some(CrlScope::CaCertsOnly)),
        only_some_reasons: None,
        indirect_crl: false,
        only_contains_attribute_certs: false,
    })
}

/// The issuing point, where there is one.
fn issuing_point_if(
    alloc: Global,
    point: Option<&CrlIssuingDistributionPoint>,
) -> Result<Option<IssuingDistributionPoint>, Error>
    requires { list_all is_ascii (issuing_uris (option_map point_of (option_copied point))) ≡ true }
    ensures value { IfOk result (λ p. p ≡ option_map issuing_point_value (option_map point_of (option_copied point.entry))) }
    ensures memory { IfErr result (λ e. e ≡ NoMemory) }
{
    let Some(point) = point else {
        return Ok(None);
    };
    Ok(Some(issuing_point(alloc, point)?))
}

/// The identifier of the issuer's key: by this method, or without one by the issuer's.
fn crl_key_id<S: SigningKey>(
    alloc: Global,
    method: Option<&KeyIdMethod>,
    issuer: &Issuer<'_, S>,
) -> Result<Vec<u8>, Error>
    ensures value { IfOk result (λ id. id.items ≡ crl_key_id (option_map method_of (option_copied method.entry)) (view_of S.key issuer.now)) }
    ensures memory { IfErr result (λ e. e ≡ NoMemory) }
{
    match method {
        Some(method) => key_id(alloc, method, issuer.key()),
        None => key_id(alloc, issuer.key_identifier_method(), issuer.key()),
    }
}

/// The identifier of the issuer's key, as the extension has it.
fn issuer_key<S: SigningKey>(
    alloc: Global,
    method: Option<&KeyIdMethod>,
    issuer: &Issuer<'_, S>,
) -> Result<AuthorityKeyIdentifier, Error>
    ensures value { IfOk result (λ id. id ≡ authority_key (crl_key_id (option_map method_of (option_copied method.entry)) (view_of S.key issuer.now))) }
    ensures memory { IfErr result (λ e. e ≡ NoMemory) }
{
    let id = crl_key_id(alloc, method, issuer)?;
    authority_key(alloc, id.as_slice())
}

/// The extensions of the list, in the order of the table.
#[tactic(auto, using(crate::proofs::ListExtensions::formed))]
fn list_extensions<S: SigningKey>(
    alloc: Global,
    params: &CertificateRevocationListParams,
    issuer: &Issuer<'_, S>,
) -> Result<Option<Extensions>, Error>
    requires { list_all is_ascii (issuing_uris (option_map point_of params.now.issuing_distribution_point)) ≡ true }
    ensures rows { IfOk result (IsField (crl_extension_rows (crl_view params.now) (view_of S.key issuer.now))) }
    ensures formed { IfOk result (λ x. IfSome x (HasTree extensions)) }
    ensures memory { IfErr result (λ e. e ≡ NoMemory) }
{
    let mut list = SequenceOf::new(alloc);
    let key = issuer_key(alloc, params.key_identifier_method.as_ref(), issuer)?;
    push_extension(
        alloc,
        &mut list,
        ID_CE_AUTHORITY_KEY_IDENTIFIER,
        false,
        Some(key),
    )?;
    let number = Integer::from_unsigned(alloc, params.crl_number.as_slice())?;
    push_extension(alloc, &mut list, ID_CE_CRL_NUMBER, false, Some(number))?;
    let point = issuing_point_if(alloc, params.issuing_distribution_point.as_ref())?;
    push_extension(
        alloc,
        &mut list,
        ID_CE_ISSUING_DISTRIBUTION_POINT,
        true,
        point,
    )?;
    Ok(extensions_field(list))
}

/// What is signed for the parameters by the issuer, but for the entries: there are none in it. Refused as
/// `list_to_be_signed` refuses.
#[tactic(auto, unfolding(pkix_cert::specs::Revocations::tbs_cert_list_fields))]
pub fn list_frame<S: SigningKey>(
    alloc: Global,
    params: &CertificateRevocationListParams,
    issuer: &Issuer<'_, S>,
) -> Result<TbsCertList, Error>
    ensures value { IfOk result (IsCrlToBeSigned (without_entries (crl_view params.now)) (view_of S.key issuer.now)) }
    ensures formed { IfOk result (HasTree tbs_cert_list) }
    ensures times { OnOk result (list_all has_entry_times (map revoked_view params.now.revoked_certs.items) ≡ true) }
    ensures ok { OnOk result (first_crl_cause (crl_view params.now) (view_of S.key issuer.now) ≡ None) }
    ensures why { IfErr result (λ e. Explains (first_crl_cause (crl_view params.now) (view_of S.key issuer.now)) ⊥ (origin_of e)) }
{
    refuse_causes(alloc, params, issuer)?;
    let signature = signature_identifier(alloc, issuer.key().algorithm())?;
    let name = issuer.issuer_field(alloc)?;
    let crl_extensions = list_extensions(alloc, params, issuer)?;
    Ok(TbsCertList {
        version: Some(Version::V2),
        signature,
        issuer: name,
        this_update: written_moment(&params.this_update),
        next_update: Some(written_moment(&params.next_update)),
        revoked_certificates: SequenceOf::new(alloc),
        crl_extensions,
    })
}

/// What the issuer's key signs for the list that `CertificateRevocationListParams::signed_by` issues
/// (RFC 5280, 5.1.1.3). Refused as that is, but never by the key.
#[tactic(auto, using(crate::proofs::Lists::entries_formed), unfolding(pkix_cert::specs::Revocations::tbs_cert_list_fields))]
pub fn list_to_be_signed<S: SigningKey>(
    alloc: Global,
    params: &CertificateRevocationListParams,
    issuer: &Issuer<'_, S>,
) -> Result<TbsCertList, Error>
    ensures value { IfOk result (IsCrlToBeSigned (crl_view params.now) (view_of S.key issuer.now)) }
    ensures formed { IfOk result (HasTree tbs_cert_list) }
    ensures ok { OnOk result (first_crl_cause (crl_view params.now) (view_of S.key issuer.now) ≡ None) }
    ensures why { IfErr result (λ e. Explains (first_crl_cause (crl_view params.now) (view_of S.key issuer.now)) ⊥ (origin_of e)) }
{
    refuse_causes(alloc, params, issuer)?;
    let signature = signature_identifier(alloc, issuer.key().algorithm())?;
    let name = issuer.issuer_field(alloc)?;
    let revoked_certificates = entries(alloc, &params.revoked_certs)?;
    let crl_extensions = list_extensions(alloc, params, issuer)?;
    Ok(TbsCertList {
        version: Some(Version::V2),
        signature,
        issuer: name,
        this_update: written_moment(&params.this_update),
        next_update: Some(written_moment(&params.next_update)),
        revoked_certificates,
        crl_extensions,
    })
}
