//! Issuers, read from their own certificates.
ghost use Rattle.std.specs.Prelude.{◌≡◌, Option, Some, IfOk, IfErr};
ghost use Rattle.pkix_cert.specs.ExtensionIds.{ce_key_usage, ce_subject_key_identifier, id_ce_der};
ghost use Rattle.der_tree.specs.PrimitiveTypes.{bit_string, octet_string};
ghost use Rattle.pkix_name.specs.Names.{name as name_codec};
ghost use Rattle.pkix_name.specs.declared.name.Name.{Name};
ghost use Rattle.rcgen_text.specs.Causes.{not_certificate};
ghost use Rattle.rcgen_text.specs.declared.error.Error.TheVariants.{OutOfMemory as NoMemory};
ghost use Rattle.rcgen_sign.specs.KeyIds.{method_of};
ghost use Rattle.rcgen_certificate.specs.Issuers.{encodable_name, issuer_field_of, key_of, name_of};
ghost use Rattle.rcgen_certificate.specs.NameValues.{issuer_name};
ghost use Rattle.rcgen_read.specs.IssuerParts.{certified_in, contents_by, issuer_in, key_ids_in, name_in, usages_in};
ghost use Rattle.rcgen_read.specs.IssuerReading.{RestoredIssuer, certified_view, method_by, read_certified, read_issuer, restored_view};
ghost use Rattle.der_tree.specs.Form.{value_of};
ghost use Rattle.rcgen_read.specs.Reading.{ReadsAs, read_exactly};

use crate::key_usage::usages_of_bits;
use crate::name::distinguished_name;
use asn1_core::{BitString, OctetString};
use der_tree::{DecodeError, der};
use pkix_cert::extension_id::{KEY_USAGE_DER, SUBJECT_KEY_IDENTIFIER_DER};
use pkix_cert::{CertificateView, parts_of_each_view};
use pkix_name::Name;
use rcgen_certificate::decoded_name_stands;
use rcgen_issue::{DistinguishedName, Error, Issuer, KeyIdMethod, KeyUsagePurpose, SigningKey};
use std::alloc::Global;

/// The one BIT STRING that the contents are. `CouldNotParseCertificate` exactly where they aren't one.
fn usage_bits(alloc: Global, contents: &[u8]) -> Result<BitString, Error>
    ensures { ReadsAs (λ b. b) (read_exactly bit_string not_certificate contents.now) result }
{
    match der::value_of(alloc, contents)? {
        Some(bits) => Ok(bits),
        None => Err(Error::CouldNotParseCertificate),
    }
}

/// The usages in the one extension on key usage, none without one. `CouldNotParseCertificate` where
/// there are two, and where the contents of the one aren't one BIT STRING.
fn stated_usages(
    alloc: Global,
    certificate: &CertificateView<'_>,
) -> Result<Vec<KeyUsagePurpose>, Error>
    ensures { ReadsAs (λ usages. usages.items) (usages_in (contents_by (id_ce_der ce_key_usage) certificate.now.extensions)) result }
{
    let mut found: Option<&[u8]> = None;
    for extension in certificate.extensions() {
        if extension.id == KEY_USAGE_DER {
            if found.is_some() {
                return Err(Error::CouldNotParseCertificate);
            }
            found = Some(extension.contents);
        }
    }
    match found {
        Some(contents) => {
            let bits = usage_bits(alloc, contents)?;
            usages_of_bits(alloc, &bits)
        }
        None => Ok(Vec::new(alloc)),
    }
}

/// The octets of the one OCTET STRING that the contents are. None exactly where they aren't one.
fn key_id(alloc: Global, contents: &[u8]) -> Result<Option<OctetString>, Error>
    ensures value { IfOk result (λ found. found ≡ value_of octet_string contents.now) }
    ensures memory { IfErr result (λ e. e ≡ NoMemory) }
{
    Ok(der::value_of(alloc, contents)?)
}

/// The method that gives the first identifier of the key whose contents are one OCTET STRING, or
/// that of SHA-256 where there is none.
fn stated_method(alloc: Global, certificate: &CertificateView<'_>) -> Result<KeyIdMethod, Error>
    ensures value { IfOk result (λ m. method_of m ≡ method_by (key_ids_in (contents_by (id_ce_der ce_subject_key_identifier) certificate.now.extensions))) }
    ensures memory { IfErr result (λ e. e ≡ NoMemory) }
{
    for extension in certificate.extensions() {
        if extension.id == SUBJECT_KEY_IDENTIFIER_DER {
            if let Some(id) = key_id(alloc, extension.contents)? {
                return Ok(KeyIdMethod::PreSpecified(id.into_vec()));
            }
        }
    }
    Ok(KeyIdMethod::Sha256)
}

/// The name whose element the octets are.
fn stated_name(alloc: Global, octets: &[u8]) -> Result<DistinguishedName, Error>
    ensures { ReadsAs (λ n. n) (name_in octets.now) result }
{
    match der::value_of::<Name>(alloc, octets)? {
        Some(name) => distinguished_name(alloc, &name),
        None => Err(Error::CouldNotParseCertificate),
    }
}

/// The subject, which has a DER encoding.
fn subject_of(alloc: Global, certificate: &CertificateView<'_>) -> Result<Name, Error>
    ensures read { ReadsAs (λ n. n) (read_exactly name_codec not_certificate certificate.now.subject) result }
    ensures formed { IfOk result (λ n. encodable_name n ≡ Some n) }
{
    decoded_name_stands();
    match der::decode_exact::<Name>(alloc, certificate.subject()) {
        Ok(name) => Ok(name),
        Err(DecodeError::OutOfMemory) => Err(Error::OutOfMemory),
        Err(DecodeError::NotInGrammar) => Err(Error::CouldNotParseCertificate),
    }
}

/// The issuer that the certificate says, with its key.
fn issuer_of_view<S: SigningKey + Drop>(
    alloc: Global,
    certificate: &CertificateView<'_>,
    signing_key: S,
) -> Result<Issuer<'static, S>, Error>
    ensures read { ReadsAs restored_view (issuer_in certificate.now) result }
    ensures field { IfOk result (λ issuer. issuer_field_of issuer ≡ issuer_name (name_of issuer)) }
    ensures key { IfOk result (λ issuer. key_of issuer ≡ signing_key) }
{
    let usages = stated_usages(alloc, certificate)?;
    let name = stated_name(alloc, certificate.subject())?;
    let method = stated_method(alloc, certificate)?;
    Ok(Issuer::from_parts(name, method, usages, signing_key))
}

/// The issuer whose own certificate is at the start of the input (RFC 5280, 4.1), with its key;
/// what follows the certificate is ignored. Its name is the subject, its key usages are those of the
/// certificate, and the identifier of its key is that of the first extension 2.5.29.14 whose contents
/// are one OCTET STRING, or else by SHA-256. That the certificate is an authority's isn't asked.
/// A name here holds each type once, one attribute to a relative distinguished name: a subject in
/// which a type occurs twice, or several attributes in one set, restores to another name, and no path
/// leads from what is then issued to that certificate. `issuer_as_certified` takes the subject as it is.
/// Refused with the first of these:
///
/// - `CouldNotParseCertificate` where no front of the input is a certificate, where there are two
///   extensions 2.5.29.15, and where the contents of one aren't exactly one BIT STRING;
/// - `CouldNotParseCertificate` or `InvalidAsn1String` of the subject.
pub fn issuer_from_ca_cert_der<S: SigningKey + Drop>(
    alloc: Global,
    der: &[u8],
    signing_key: S,
) -> Result<Issuer<'static, S>, Error>
    ensures read { ReadsAs restored_view (read_issuer der.now) result }
    ensures field { IfOk result (λ issuer. issuer_field_of issuer ≡ issuer_name (name_of issuer)) }
    ensures key { IfOk result (λ issuer. key_of issuer ≡ signing_key) }
{
    parts_of_each_view();
    let Some(certificate) = CertificateView::new(der) else {
        return Err(Error::CouldNotParseCertificate);
    };
    issuer_of_view(alloc, &certificate, signing_key)
}

/// The subject of a certificate as an issuer, under exactly its name.
fn certified_issuer<S: SigningKey + Drop>(
    alloc: Global,
    certificate: &CertificateView<'_>,
    signing_key: S,
) -> Result<Issuer<'static, S>, Error>
    ensures read { ReadsAs certified_view (certified_in certificate.now) result }
    ensures key { IfOk result (λ issuer. key_of issuer ≡ signing_key) }
{
    let usages = stated_usages(alloc, certificate)?;
    let name = subject_of(alloc, certificate)?;
    let method = stated_method(alloc, certificate)?;
    let issuer = Issuer::from_parts(DistinguishedName::new(alloc), method, usages, signing_key);
    Ok(issuer.with_name(name))
}

/// As `issuer_from_ca_cert_der`, but that the issuer has the subject octet by octet as its name
/// (`Issuer::with_name`), whatever it contains: a type twice, several attributes in one set, a value
/// that is no text. So a path leads from what it issues to that certificate. Refused with
/// `CouldNotParseCertificate` alone.
pub fn issuer_as_certified<S: SigningKey + Drop>(
    alloc: Global,
    der: &[u8],
    signing_key: S,
) -> Result<Issuer<'static, S>, Error>
    ensures read { ReadsAs certified_view (read_certified der.now) result }
    ensures key { IfOk result (λ issuer. key_of issuer ≡ signing_key) }
{
    parts_of_each_view();
    let Some(certificate) = CertificateView::new(der) else {
        return Err(Error::CouldNotParseCertificate);
    };
    certified_issuer(alloc, &certificate, signing_key)
}

/// What is read back from its own certificate.
pub trait ReadBack<S>: Sized {
    /// What the certificate says of it.
    ghost restored: { Self → RestoredIssuer };

    /// The value of its issuer field.
    ghost field: { Self → Option Name };

    /// Its key.
    ghost key: { Self → S };

    /// `issuer_from_ca_cert_der`.
    fn from_ca_cert_der(alloc: Global, der: &[u8], signing_key: S) -> Result<Self, Error>
        ensures read { ReadsAs restored (read_issuer der.now) result }
        ensures field { IfOk result (λ issuer. field issuer ≡ issuer_name (restored issuer).name) }
        ensures key { IfOk result (λ issuer. key issuer ≡ signing_key) };
}

impl<S: SigningKey + Drop> ReadBack<S> for Issuer<'static, S> {
    ghost restored = { restored_view };

    ghost field = { issuer_field_of };

    ghost key = { key_of };

    fn from_ca_cert_der(alloc: Global, der: &[u8], signing_key: S) -> Result<Self, Error> {
        issuer_from_ca_cert_der(alloc, der, signing_key)
    }
}
