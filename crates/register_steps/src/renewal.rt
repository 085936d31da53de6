//! The message of a new certificate that says what an old one says.
ghost use Rattle.std.specs.Prelude.{◌≡◌, ◌&&◌, IfErr, IfOk, IfSome, OnOk, is_some, true};
ghost use Rattle.asn1_core.specs.Twos.{is_shortest};
ghost use Rattle.der_tree.specs.HasTree.{HasTree};
ghost use Rattle.pkix_cert.specs.Certificates.{tbs_certificate};
ghost use Rattle.pkix_cert.specs.Times.{time, validity};
ghost use Rattle.register_lines.specs.Times.{has_year};
ghost use Rattle.register_steps.specs.Renewal.{ExplainsRenewal, IsRenewed, IsTimeOf};

use crate::encoding::encoded;
use asn1_core::{Integer, OutOfMemory};
use der_tree::der;
use pkix_cert::{Certificate, TbsCertificate, Time, Validity};
use rcgen_certificate::written_moment;
use register_lines::{has_year, moment_at};
use std::alloc::Global;

/// Why there is no message of a renewed certificate.
#[derive(Clone, Copy, Debug)]
pub enum RenewError {
    /// The octets aren't the DER of a certificate.
    NotCertificate,
    /// A time's year in UTC isn't one from 0 to 9999.
    Time,
    OutOfMemory,
}

impl From<OutOfMemory> for RenewError {
    ghost use Rattle.std.specs.Prelude.{◌≡◌};
    ghost use Rattle.register_steps.specs.declared.renewal.RenewError.TheVariants.{OutOfMemory as NoMemory};

    ghost from_gives = { λ _ r. r ≡ NoMemory };

    fn from(_: OutOfMemory) -> RenewError {
        RenewError::OutOfMemory
    }
}

/// The moment so many seconds after the start of 1970, in the form that its year asks for.
pub fn time_at(seconds: i64) -> Time
    requires { has_year seconds ≡ true }
    ensures value { IsTimeOf seconds result }
    ensures formed { HasTree time result }
{
    let moment = moment_at(seconds);
    written_moment(&moment)
}

#[tactic(auto, unfolding(pkix_cert::specs::Times::validity_fields))]
fn from_to(not_before: i64, not_after: i64) -> Validity
    requires first { has_year not_before ≡ true }
    requires last { has_year not_after ≡ true }
    ensures first { IsTimeOf not_before result.not_before }
    ensures last { IsTimeOf not_after result.not_after }
    ensures formed { HasTree validity result }
{
    Validity {
        not_before: time_at(not_before),
        not_after: time_at(not_after),
    }
}

/// The validity from one time to another, where both have a year of four digits.
fn validity_of(not_before: i64, not_after: i64) -> Option<Validity>
    ensures some { is_some result ≡ (has_year not_before && has_year not_after) }
    ensures first { IfSome result (λ v. IsTimeOf not_before v.not_before) }
    ensures last { IfSome result (λ v. IsTimeOf not_after v.not_after) }
    ensures formed { IfSome result (HasTree validity) }
{
    if !has_year(not_before) {
        return None;
    }
    if !has_year(not_after) {
        return None;
    }
    let validity = from_to(not_before, not_after);
    Some(validity)
}

/// The contents octets of a number are as few as may be (X.690, 8.3.2).
fn shortest(serial: &Integer)
    ensures { is_shortest serial.now ≡ true }
{
    let _octets = serial.as_bytes();
}

/// What is signed, with this serial number and this validity.
fn with_validity(mut tbs: TbsCertificate, serial: Integer, validity: Validity) -> TbsCertificate
    ensures { result ≡ record tbs { serial_number = serial; validity = validity } }
{
    tbs.serial_number = serial;
    tbs.validity = validity;
    tbs
}

/// The message of a certificate with this serial number and this validity, in seconds since 1970, which
/// says all else as the one with these octets does (RFC 5280, 4.1.2).
pub fn renewed(
    alloc: Global,
    certificate: &[u8],
    serial: Integer,
    not_before: i64,
    not_after: i64,
) -> Result<Vec<u8>, RenewError>
    ensures ok { IfOk result (λ message. IsRenewed certificate.now serial not_before not_after message.items) }
    ensures times { OnOk result (has_year not_before && has_year not_after ≡ true) }
    ensures why { IfErr result (ExplainsRenewal certificate.now not_before not_after) }
{
    let Some(old) = der::value_of::<Certificate>(alloc, certificate)? else {
        return Err(RenewError::NotCertificate);
    };
    let Some(validity) = validity_of(not_before, not_after) else {
        return Err(RenewError::Time);
    };
    shortest(&serial);
    let Certificate {
        tbs_certificate,
        signature_algorithm: _,
        signature_value: _,
    } = old;
    let value = with_validity(tbs_certificate, serial, validity);
    let message = encoded(alloc, &value)?;
    Ok(message)
}
