ghost use Rattle.std.specs.Prelude.{◌≡◌, ◌⊎◌, true, IfOk, IfErr, OnOk, OnErr, map, string_bytes};
ghost use Rattle.jiff.specs.Words.{IsYear};
ghost use Rattle.rcgen_text.specs.AlternativeNames.{alternative_name};
ghost use Rattle.rcgen_text.specs.Causes.{origin_of, cause, ia5_text};
ghost use Rattle.rcgen_text.specs.Dates.{IsMidnight};
ghost use Rattle.rcgen_text.specs.declared.error.Error.TheVariants.{OutOfMemory as NoMemory};
ghost use Rattle.rcgen_sign.specs.KeyIds.{key_id, method_of};
ghost use Rattle.rcgen_sign.specs.Keys.{key_info_octets};
ghost use Rattle.rcgen_certificate.specs.ExtendedKeyUsages.{with_purpose};
ghost use Rattle.rcgen_certificate.specs.Params.{AreNamesOfTexts, HasName, IsDefault, IsDefaultWith, IsFirstNameless, IsNameOfText, SaysSame};
ghost use Rattle.rcgen_certificate.specs.contracts.params.CertificateParamsPartialEq.TheImpl.{ghosts as equality};

use crate::custom_extension::CustomExtension;
use crate::distribution_point::CrlDistributionPoint;
use crate::extended_key_usage::{ExtendedKeyUsagePurpose, insert};
use crate::key_identifier::key_id;
use crate::name_constraints::NameConstraints;
use asn1_core::{OffsetDateTime, OutOfMemory};
use rcgen_sign::{KeyIdMethod, PublicKeyData};
use rcgen_text::string::Ia5String;
use rcgen_text::{DistinguishedName, Error, IpAddr, IsCa, KeyUsagePurpose, SanType, SerialNumber};
use std::alloc::Global;

/// Parameters of a certificate. Times are equal where they are the same instant.
#[derive(Clone, Debug, PartialEq, Eq, Drop)]
pub struct CertificateParams {
    pub not_before: OffsetDateTime,
    /// It may lie before `not_before`.
    pub not_after: OffsetDateTime,
    /// Without one it is the first 160 bits of the SHA-256 of the subject's key, the highest
    /// cleared.
    pub serial_number: Option<SerialNumber>,
    /// Names beside the distinguished one.
    pub subject_alt_names: Vec<SanType>,
    pub distinguished_name: DistinguishedName,
    /// Whether the subject is an authority.
    pub is_ca: IsCa,
    /// What the subject's key is for.
    pub key_usages: Vec<KeyUsagePurpose>,
    /// Purposes of the subject's key.
    pub extended_key_usages: Vec<ExtendedKeyUsagePurpose>,
    /// Which names certificates further on in a path may have.
    pub name_constraints: Option<NameConstraints>,
    /// Where lists of revoked certificates are found.
    pub crl_distribution_points: Vec<CrlDistributionPoint>,
    /// Extensions as they are, after all others.
    pub custom_extensions: Vec<CustomExtension>,
    /// Whether the identifier of the issuer's key is an extension.
    pub use_authority_key_identifier_extension: bool,
    /// How the identifiers of keys are made, that of the issuer's key by `Issuer`.
    pub key_identifier_method: KeyIdMethod,
}

impl CertificateParams {
    /// Parameters from the start of 1975 to the start of 4096, with the one common name
    /// `rcgen self signed cert`, no serial number, `NoCa`, `KeyIdMethod::Sha256`, and nothing for
    /// any extension.
    pub fn default(alloc: Global) -> Result<CertificateParams, Error>
        ensures value { IfOk result IsDefault }
        ensures memory { IfErr result (λ e. e ≡ NoMemory) }
    {
        let common_name = String::from_str(alloc, "rcgen self signed cert")?;
        Ok(CertificateParams {
            not_before: start_of(1975),
            not_after: start_of(4096),
            serial_number: None,
            subject_alt_names: Vec::new(alloc),
            distinguished_name: DistinguishedName::from_common_name(alloc, common_name)?,
            is_ca: IsCa::NoCa,
            key_usages: Vec::new(alloc),
            extended_key_usages: Vec::new(alloc),
            name_constraints: None,
            crl_distribution_points: Vec::new(alloc),
            custom_extensions: Vec::new(alloc),
            use_authority_key_identifier_extension: false,
            key_identifier_method: KeyIdMethod::Sha256,
        })
    }

    /// The default parameters with these alternative names, in order: each text that is an IP
    /// address is one, and any other is a DNS name (RFC 5280, 4.2.1.6). `InvalidAsn1String` with the
    /// first text that is neither an address nor ASCII.
    pub fn new(alloc: Global, subject_alt_names: Vec<String>) -> Result<CertificateParams, Error>
        ensures names { IfOk result (IsDefaultWith (AreNamesOfTexts (map string_bytes subject_alt_names.items))) }
        ensures why { IfErr result (λ e. (e ≡ NoMemory) ⊎ IsFirstNameless (map string_bytes subject_alt_names.items) e) }
    {
        let subject_alt_names = names_of(alloc, subject_alt_names)?;
        let mut params = CertificateParams::default(alloc)?;
        params.subject_alt_names = subject_alt_names;
        Ok(params)
    }

    /// The identifier of a key, by the parameters' method (RFC 5280, 4.2.1.2).
    pub fn key_identifier<K: PublicKeyData>(&self, alloc: Global, key: &K) -> Result<Vec<u8>, Error>
        ensures value { IfOk result (λ id. id.items ≡ key_id (method_of self.now.key_identifier_method) (key_info_octets (K.key key.now))) }
        ensures memory { IfErr result (λ e. e ≡ NoMemory) }
    {
        key_id(alloc, &self.key_identifier_method, key)
    }

    /// Puts a purpose of the subject's key at the end where none of them equals it. `OutOfMemory`
    /// changes nothing.
    pub fn insert_extended_key_usage(&mut self, eku: ExtendedKeyUsagePurpose) -> Result<(), Error>
        ensures inserted { OnOk result (self.new.extended_key_usages.items ≡ with_purpose self.old.extended_key_usages.items eku) }
        ensures unchanged { OnErr result (self.new.extended_key_usages.items ≡ self.old.extended_key_usages.items) }
        ensures rest { self.new ≡ record (self.old) { extended_key_usages = self.new.extended_key_usages } }
        ensures memory { IfErr result (λ e. e ≡ NoMemory) }
    {
        insert(&mut self.extended_key_usages, eku)
    }
}

// no `TryClone`: a copied `Vec` may have another capacity
impl CertificateParams {
    /// Parameters that say the same.
    #[tactic(auto, using(crate::proofs::Equality::params_equal))]
    pub fn try_clone(&self, _alloc: Global) -> Result<CertificateParams, OutOfMemory>
        ensures same { IfOk result (SaysSame self.now) }
        ensures equal { IfOk result (λ copy. equality.eq copy self.now ≡ true) }
    {
        let copy = self.copied()?;
        Ok(copy)
    }

    /// Parameters that say the same.
    #[tactic(auto, using(crate::proofs::Copies::copies))]
    fn copied(&self) -> Result<CertificateParams, OutOfMemory>
        ensures { IfOk result (SaysSame self.now) }
    {
        Ok(self.clone()?)
    }
}

/// The first midnight of a year in UTC.
fn start_of(year: i32) -> OffsetDateTime
    requires { IsYear year }
    ensures { IsMidnight year 1 1 result }
{
    match OffsetDateTime::ymd(year, 1, 1) {
        Some(moment) => moment,
        None => unreachable!(),
    }
}

/// The alternative name that a text is.
fn name_of(text: String) -> Result<SanType, Error>
    ensures name { IfOk result (λ name. IsNameOfText (string_bytes text) (alternative_name name)) }
    ensures nameless { IfErr result (λ e. ¬ (HasName (string_bytes text))) }
    ensures why { IfErr result (λ e. origin_of e ≡ cause (ia5_text (string_bytes text))) }
{
    match IpAddr::parse(text.as_str()) {
        Some(address) => Ok(SanType::IpAddress(address)),
        None => Ok(SanType::DnsName(Ia5String::try_from_string(text)?)),
    }
}

/// The alternative names that the texts are, in order.
fn names_of(alloc: Global, texts: Vec<String>) -> Result<Vec<SanType>, Error>
    ensures names { IfOk result (λ names. AreNamesOfTexts (map string_bytes texts.items) names.items) }
    ensures why { IfErr result (λ e. (e ≡ NoMemory) ⊎ IsFirstNameless (map string_bytes texts.items) e) }
{
    let mut names = Vec::with_capacity(alloc, texts.len())?;
    for text in texts {
        names.push(name_of(text)?)?;
    }
    Ok(names)
}
