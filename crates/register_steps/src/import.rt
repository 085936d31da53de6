//! Certificates that were issued before, as events.
ghost use Rattle.std.specs.Prelude.{◌≡◌, IfOk, IfErr};
ghost use Rattle.register_record.specs.declared.event.Event.TheVariants as event;
ghost use Rattle.der_tree.specs.Form.{value_of};
ghost use Rattle.pkix_attr.specs.Certificates.{attribute_certificate_info};
ghost use Rattle.pkix_cert.specs.Views.{certificate_parts};
ghost use Rattle.register_steps.specs.Import.{ExplainsImport, IsImported, is_certificate_named, is_named};
ghost use Rattle.register_steps.specs.Sealing.{IsOpened};

use crate::encoding::are_same;
use crate::message::{Description, described};
use crate::named::is_attribute_named;
use crate::sealing::{SealError, opened};
use asn1_core::{OctetString, OutOfMemory, TryClone};
use pkix_cert::CertificateView;
use register_record::{Event, Kind};
use std::alloc::Global;

/// The events of a certificate that was issued before.
#[derive(Drop)]
pub struct ImportedEvents {
    pub reserved: Event,
    pub sealed: Event,
}

fn events(
    alloc: Global,
    says: Description,
    message: OctetString,
    octets: &[u8],
) -> Result<ImportedEvents, OutOfMemory>
    ensures reserved { IfOk result (λ i. i.reserved ≡ event.Reserved says.serial says.kind says.not_after message) }
    ensures sealed { IfOk result (λ i. i.sealed ≡ event.Sealed says.serial octets.now) }
{
    let Description {
        kind,
        serial,
        not_after,
    } = says;
    let copy = serial.try_clone(alloc)?;
    let octets = OctetString::new(Vec::from_slice(alloc, octets)?);
    Ok(ImportedEvents {
        reserved: Event::Reserved {
            serial,
            kind,
            not_after,
            message,
        },
        sealed: Event::Sealed {
            serial: copy,
            octets,
        },
    })
}

fn opened_octets(alloc: Global, issuer: &[u8], octets: &[u8]) -> Result<OctetString, SealError>
    ensures ok { IfOk result (IsOpened issuer.now octets.now) }
    ensures why { IfErr result (ExplainsImport issuer.now octets.now) }
{
    match opened(alloc, issuer, octets) {
        Ok(message) => Ok(message),
        Err(why) => Err(why),
    }
}

/// Whether a certificate names the subject of the issuer's certificate as its issuer.
fn is_certificate_named(issuer: &[u8], octets: &[u8]) -> bool
    ensures { result ≡ is_certificate_named (certificate_parts issuer.now) (certificate_parts octets.now) }
{
    let Some(issuer) = CertificateView::new(issuer) else {
        return false;
    };
    let Some(certificate) = CertificateView::new(octets) else {
        return false;
    };
    are_same(issuer.subject(), certificate.issuer())
}

fn is_named(
    alloc: Global,
    kind: Kind,
    issuer: &[u8],
    octets: &[u8],
    message: &[u8],
) -> Result<bool, OutOfMemory>
    ensures { IfOk result (λ b. b ≡ is_named kind (certificate_parts issuer.now) (certificate_parts octets.now)
        (value_of attribute_certificate_info message.now)) }
{
    match kind {
        Kind::Certificate => Ok(is_certificate_named(issuer, octets)),
        Kind::AttributeCertificate => {
            let named = is_attribute_named(alloc, issuer, message)?;
            Ok(named)
        }
    }
}

/// The events of a certificate, or an attribute certificate, that the issuer's key signed. Refused
/// exactly where the octets are none; `OtherIssuer` where it names another issuer.
pub fn imported(alloc: Global, issuer: &[u8], octets: &[u8]) -> Result<ImportedEvents, SealError>
    ensures ok { IfOk result (IsImported issuer.now octets.now) }
    ensures why { IfErr result (ExplainsImport issuer.now octets.now) }
{
    let message = opened_octets(alloc, issuer, octets)?;
    let Some(says) = described(alloc, message.as_slice())? else {
        return Err(SealError::NotMessage);
    };
    let kind = says.kind;
    let named = is_named(alloc, kind, issuer, octets, message.as_slice())?;
    if !named {
        return Err(SealError::OtherIssuer);
    }
    let imported = events(alloc, says, message, octets)?;
    Ok(imported)
}
