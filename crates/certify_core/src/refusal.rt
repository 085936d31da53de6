//! Why a command has no text for its input.
ghost use Rattle.std.specs.Prelude.{◌≡◌};
ghost use Rattle.certify_core.specs.AttributeRefusals.{attribute_refusal};
ghost use Rattle.certify_core.specs.Outcome.{refusal_of};
ghost use Rattle.certify_core.specs.declared.refusal.Refusal.TheVariants.{Cause, OutOfMemory};

use crate::cause_name::CauseName;
use attr_issue::AttrError;
use rcgen_issue::Error;
use std::alloc::AllocError;
use toml_format::Reason;

/// Why a command has no text for its input.
#[derive(Drop)]
pub(crate) enum Refusal {
    /// The input is none that the command takes.
    Reason(Reason),
    /// What the input asks for can't be done.
    Cause(CauseName),
    /// Memory was refused.
    OutOfMemory,
}

/// A cause that has this name.
fn cause(name: &'static [u8]) -> Refusal
    ensures { result ≡ Cause name.now }
{
    Refusal::Cause(CauseName::new(name))
}

/// The error as a refusal, with the name of its variant.
pub(crate) fn refusal_of(error: &Error) -> Refusal
    ensures { result ≡ refusal_of error.now }
{
    match error {
        Error::CouldNotParseCertificate => cause(b"CouldNotParseCertificate"),
        Error::CouldNotParseCertificationRequest => cause(b"CouldNotParseCertificationRequest"),
        Error::InvalidCertificationRequestSignature => {
            cause(b"InvalidCertificationRequestSignature")
        }
        Error::InvalidNameType => cause(b"InvalidNameType"),
        Error::InvalidAsn1String(_) => cause(b"InvalidAsn1String"),
        Error::InvalidIpAddressOctetLength(_) => cause(b"InvalidIpAddressOctetLength"),
        Error::UnsupportedExtension => cause(b"UnsupportedExtension"),
        Error::UnsupportedSignatureAlgorithm => cause(b"UnsupportedSignatureAlgorithm"),
        Error::Time => cause(b"Time"),
        Error::RemoteKeyError => cause(b"RemoteKeyError"),
        Error::UnsupportedInCsr => cause(b"UnsupportedInCsr"),
        Error::InvalidCrlNextUpdate => cause(b"InvalidCrlNextUpdate"),
        Error::IssuerNotCrlSigner => cause(b"IssuerNotCrlSigner"),
        Error::EmptyCrlDistributionPointUris => cause(b"EmptyCrlDistributionPointUris"),
        Error::X509(_) => cause(b"X509"),
        Error::InvalidObjectIdentifier => cause(b"InvalidObjectIdentifier"),
        Error::InvalidAttributeValues => cause(b"InvalidAttributeValues"),
        Error::OutOfMemory => Refusal::OutOfMemory,
    }
}

impl From<AttrError> for Refusal {
    ghost from_gives = { λ e r. r ≡ attribute_refusal e };

    fn from(error: AttrError) -> Refusal {
        match error {
            AttrError::NoAttributes => cause(b"NoAttributes"),
            AttrError::RepeatedAttribute => cause(b"RepeatedAttribute"),
            AttrError::Refused(error) => refusal_of(&error),
            AttrError::OutOfMemory => Refusal::OutOfMemory,
        }
    }
}

impl From<AllocError> for Refusal {
    ghost from_gives = { λ _ e. e ≡ OutOfMemory };

    fn from(_e: AllocError) -> Refusal {
        Refusal::OutOfMemory
    }
}

impl From<asn1_core::OutOfMemory> for Refusal {
    ghost from_gives = { λ _ e. e ≡ OutOfMemory };

    fn from(_e: asn1_core::OutOfMemory) -> Refusal {
        Refusal::OutOfMemory
    }
}

impl From<Error> for Refusal {
    ghost from_gives = { λ e r. r ≡ refusal_of e };

    fn from(error: Error) -> Refusal {
        refusal_of(&error)
    }
}
