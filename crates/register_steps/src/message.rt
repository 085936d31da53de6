//! What the register keeps of a message: what it is for, its serial number and its end.
ghost use Rattle.std.specs.Prelude.{◌≡◌, IfOk};
ghost use Rattle.std.specs.Option.{option_map};
ghost use Rattle.der_tree.specs.Form.{value_of};
ghost use Rattle.pkix_attr.specs.Certificates.{attribute_certificate_info};
ghost use Rattle.pkix_cert.specs.Certificates.{tbs_certificate};
ghost use Rattle.register_steps.specs.Messages.{described, of_attribute, of_certificate};

use asn1_core::{Integer, OutOfMemory, TryClone};
use der_tree::der;
use pkix_attr::AttributeCertificateInfo;
use pkix_cert::TbsCertificate;
use register_lines::second_of;
use register_record::Kind;
use std::alloc::Global;

/// What the register keeps of a message.
#[derive(Drop)]
pub struct Description {
    pub kind: Kind,
    pub serial: Integer,
    /// The last second of its validity, in seconds since 1970.
    pub not_after: i64,
}

/// What a TBSCertificate says.
fn of_certificate(alloc: Global, tbs: &TbsCertificate) -> Result<Description, OutOfMemory>
    ensures { IfOk result (λ d. d ≡ of_certificate tbs.now) }
{
    let serial = tbs.serial_number.try_clone(alloc)?;
    let not_after = second_of(tbs.validity.not_after.moment());
    Ok(Description {
        kind: Kind::Certificate,
        serial,
        not_after,
    })
}

/// What an AttributeCertificateInfo says.
fn of_attribute(alloc: Global, info: &AttributeCertificateInfo) -> Result<Description, OutOfMemory>
    ensures { IfOk result (λ d. d ≡ of_attribute info.now) }
{
    let serial = info.serial_number.try_clone(alloc)?;
    let not_after = second_of(info.attr_cert_validity_period.not_after.at);
    Ok(Description {
        kind: Kind::AttributeCertificate,
        serial,
        not_after,
    })
}

fn described_certificate(alloc: Global, message: &[u8]) -> Result<Option<Description>, OutOfMemory>
    ensures { IfOk result (λ o. o ≡ option_map of_certificate (value_of tbs_certificate message.now)) }
{
    let Some(tbs) = der::value_of::<TbsCertificate>(alloc, message)? else {
        return Ok(None);
    };
    let described = of_certificate(alloc, &tbs)?;
    Ok(Some(described))
}

fn described_attribute(alloc: Global, message: &[u8]) -> Result<Option<Description>, OutOfMemory>
    ensures { IfOk result (λ o. o ≡ option_map of_attribute (value_of attribute_certificate_info message.now)) }
{
    let Some(info) = der::value_of::<AttributeCertificateInfo>(alloc, message)? else {
        return Ok(None);
    };
    let described = of_attribute(alloc, &info)?;
    Ok(Some(described))
}

/// What a message says, the DER of a TBSCertificate (RFC 5280, 4.1.2) or of an AttributeCertificateInfo
/// (RFC 5755, 4.1); None where it is neither.
#[tactic(auto, unfolding(crate::specs::Messages::described))]
pub fn described(alloc: Global, message: &[u8]) -> Result<Option<Description>, OutOfMemory>
    ensures { IfOk result (λ o. o ≡ described message.now) }
{
    if let Some(described) = described_certificate(alloc, message)? {
        return Ok(Some(described));
    }
    let described = described_attribute(alloc, message)?;
    Ok(described)
}
