//! Why an order isn't carried out.
ghost use Rattle.std.specs.Prelude.{◌≡◌};
ghost use Rattle.shelf_fault.specs.Faults.{fault_of, fault_of_arcs, fault_of_text};
ghost use Rattle.shelf_fault.specs.declared.fault.Fault.TheVariants.{OutOfMemory};

use asn1_core::{ObjectIdentifier, OctetString, OidFault};
use pem::PemError;
use rcgen_text::Error;
use std::alloc::{AllocError, AllocFailed};
use toml_format::Reason;

/// What a block is, by its label (RFC 7468).
#[derive(Clone, Copy, Debug, PartialEq, Eq)]
pub enum Label {
    /// `PUBLIC KEY`: the subject's key (RFC 7468, 13).
    PublicKey,
    /// `CERTIFICATE REQUEST`, or `NEW CERTIFICATE REQUEST`: the subject's request (RFC 7468, 7).
    Request,
    /// `CERTIFICATE`: the issuer's certificate (RFC 7468, 5).
    Certificate,
}

/// Whose key it is.
#[derive(Clone, Copy, Debug, PartialEq, Eq)]
pub enum Place {
    /// The one of the block `PUBLIC KEY`.
    PublicKey,
    /// The one that the request is for.
    Request,
    /// The issuer's, in its certificate.
    Issuer,
}

/// Why a key isn't taken.
#[derive(Debug, PartialEq, Eq, Drop)]
pub enum KeyFault {
    /// The octets aren't a SubjectPublicKeyInfo (RFC 5280, 4.1.2.7).
    NotRead,
    /// No algorithm that is known has such keys. The identifier is that of the key's own algorithm.
    Unknown(ObjectIdentifier),
    /// The key, whose algorithm has this identifier, doesn't sign with the hash function of `digest`.
    OtherDigest(ObjectIdentifier),
    /// The key, whose algorithm has this identifier, doesn't sign with the padding of `padding`.
    OtherPadding(ObjectIdentifier),
    /// The parameters of its algorithm aren't ones that the algorithm has (RFC 3279, 2.3.1; RFC 5480, 2.1;
    /// RFC 8410, 3), or aren't strict DER.
    Parameters,
}

/// Why the issuer's certificate isn't taken.
#[derive(Clone, Copy, Debug, PartialEq, Eq)]
pub enum IssuerFault {
    /// The octets aren't a certificate.
    NotRead,
    /// It isn't an authority's: basicConstraints don't say cA (RFC 5280, 4.2.1.9).
    NoAuthority,
    /// Its key usages don't have keyCertSign (RFC 5280, 4.2.1.3).
    NoCertSign,
    /// It is an authority's, which doesn't issue attribute certificates too (RFC 5755, 4.5).
    IsAuthority,
    /// Its key usages don't have digitalSignature, as an issuer of attribute certificates needs it
    /// (RFC 5755, 4.5).
    NoDigitalSignature,
    /// Its version isn't 3, the only one with extensions (RFC 5280, 4.1.2.1 and 6.1.4 (k)).
    NotVersion3,
    /// An extension occurs twice in it (RFC 5280, 4.2).
    RepeatedExtension,
    /// A critical extension of it isn't known here (RFC 5280, 4.2).
    UnknownCritical,
    /// An extension that paths or the key identifier need can't be read (RFC 5280, 4.2).
    UnreadExtension,
    /// The algorithm in the signed part isn't the one that comes after that part (RFC 5280, 4.1.1.2).
    OtherAlgorithm,
    /// Key usage is there and states none (RFC 5280, 4.2.1.3).
    NoUsage,
    /// Its path length is below zero (RFC 5280, 4.2.1.9).
    NegativePathLength,
    /// It has no subject, whose name would be the issuer's (RFC 5280, 4.1.2.4).
    EmptySubject,
    /// Its subject, which would be the issuer's name, holds what isn't strict DER (X.690).
    SubjectNotStrict,
}

/// The form of an alternative name, by what its text begins with in an order.
#[derive(Clone, Copy, Debug, PartialEq, Eq)]
pub enum NameForm {
    /// `dns:`.
    Dns,
    /// `email:`.
    Email,
    /// `uri:`.
    Uri,
    /// `ip:`.
    Ip,
    /// `other:`.
    Other,
}

/// Why the signature isn't taken.
#[derive(Clone, Copy, Debug, PartialEq, Eq)]
pub enum SignatureFault {
    /// The file has several blocks, or one with another label than `SIGNATURE`.
    OtherBlock,
    /// It isn't in the form of a signature by the signing key.
    OtherForm,
    /// It isn't the signing key's over what is to be signed.
    Wrong,
}

/// Why a line of the file of `--revoked` isn't an entry of a revocation list.
#[derive(Clone, Copy, Debug, PartialEq, Eq)]
pub enum LineFault {
    /// It doesn't have two to four words between single spaces.
    Words,
    /// The first word isn't a serial number: a positive number in hex, whose INTEGER has at most 20 octets
    /// (RFC 5280, 4.1.2.2).
    Serial,
    /// The second word isn't a time.
    Time,
    /// The third word is neither `-` nor a reason that an entry of a complete list may have (RFC 5280, 5.3.1).
    Reason,
    /// The fourth word isn't a time.
    Invalid,
}

/// Why what is asked for can't be issued: the variant of `rcgen_text::Error`, without its text.
#[derive(Clone, Copy, Debug, PartialEq, Eq)]
pub enum Obstacle {
    /// A name or an extension in a certificate or a request can't be read.
    NotRead,
    /// The request can't be read.
    RequestNotRead,
    /// An alternative name is of a kind that isn't issued.
    NameType,
    /// A text has a character that its type lacks.
    Text,
    /// An IP address has neither 4 nor 16 octets.
    AddressLength,
    /// A request asks for an extension whose contents aren't of its type.
    Extension,
    /// No algorithm that is known has this identifier.
    Algorithm,
    /// A time isn't within the years 0 to 9999 in UTC.
    Time,
    /// A request has no place for what is asked.
    NoPlace,
    /// The next update of a list isn't later than this one (RFC 5280, 5.1.2.5).
    NextUpdate,
    /// The issuer's key isn't for signing lists (RFC 5280, 4.2.1.3).
    NotCrlSigner,
    /// A distribution point has no URI (RFC 5280, 4.2.1.13).
    EmptyPoint,
    /// Arcs aren't an object identifier (X.660, 7.6).
    Identifier,
    /// A type of attribute occurs twice in a name, and only the last of the two would stay.
    RepeatedType,
    /// `permitted` or `excluded` is there and has no subtree (RFC 5280, 4.2.1.10).
    NoSubtree,
    /// A policy occurs twice (RFC 5280, 4.2.1.4).
    RepeatedPolicy,
    /// An attribute certificate has no attribute (RFC 5755, 4.2.7).
    NoAttributes,
    /// Two attributes have the same type (RFC 5755, 4.2.7).
    RepeatedAttribute,
    /// The values of an attribute aren't the DER of a set of at least one (RFC 5755, 4.2.7), or hold
    /// what isn't strict DER.
    AttributeValues,
    /// The content of an extension of the order isn't one element of strict DER (RFC 5280, 4.2).
    ExtensionContent,
    /// Another one, which no order has.
    Other,
}

/// Why an order isn't carried out.
#[derive(Debug, PartialEq, Eq, Drop)]
pub enum Fault {
    /// Memory was refused.
    OutOfMemory,
    /// The blocks aren't as RFC 7468 has them.
    Blocks(pem::Refusal),
    /// There is no block.
    NoBlock,
    /// The file of this number, from 1, has no block and isn't the DER of a SEQUENCE.
    NoBlockIn(usize),
    /// The block of this number, from 1, has a label that isn't one of those that are read.
    OtherLabel(usize),
    /// The block of this number, from 1, isn't a certificate, by its label or by its octets.
    NotCertificate(usize),
    /// The block of this number, from 1, isn't a revocation list, by its label or by its octets.
    NotList(usize),
    /// Two blocks have this label.
    Repeated(Label),
    /// A block with this label has to be there.
    Missing(Label),
    /// A block with this label occurs where none is read.
    Unused(Label),
    /// It isn't an order.
    Order(Reason),
    /// `--revoked` is given, and the order isn't that of a revocation list.
    RevokedUnused,
    /// The file of `--revoked` isn't UTF-8.
    RevokedText,
    /// The line of this number, from 1, of the file of `--revoked` isn't an entry.
    RevokedLine(usize, LineFault),
    /// The certificate would end before it begins (RFC 5280, 4.1.2.5).
    EndsFirst,
    /// A key isn't taken.
    Key(Place, KeyFault),
    /// The issuer's certificate isn't taken.
    Issuer(IssuerFault),
    /// The request isn't read.
    RequestNotRead,
    /// The request's signature isn't that of its key.
    RequestNotSigned,
    /// The request's signature is by an algorithm that isn't taken or under a key of a kind that isn't
    /// known, so that it isn't decided whether it is its key's, and `unchecked_request` isn't said.
    RequestUnchecked,
    /// The request asks for the extension with this identifier, which is neither known nor passed over.
    RequestExtension(ObjectIdentifier),
    /// The request asks for extensions in two attributes (RFC 2985, 5.4.2), or in Microsoft's
    /// (1.3.6.1.4.1.311.2.1.14), which isn't read.
    RequestAttributes,
    /// The request asks for an extension twice (RFC 5280, 4.2).
    RequestRepeats,
    /// The identifier of the key is to be the request's, which asks for none, or for what is none
    /// (RFC 5280, 4.2.1.2).
    RequestKeyId,
    /// The name that the request asks for can't be kept as it is.
    NameNotKept,
    /// A DNS name, mailbox or URI that the request asks for is empty, or has a character outside U+0021 to
    /// U+007E; or another name has a hidden character.
    RequestName,
    /// A DNS name that the request asks for isn't a host's (RFC 1034, 3.5; RFC 1123, 2.1), a mailbox has no
    /// local part, @ and host, or a URI is relative (RFC 5280, 4.2.1.6).
    RequestNameForm,
    /// A common name of the subject is to be an alternative name and isn't a host's (RFC 1034, 3.5; RFC 1123,
    /// 2.1), or there are more than 16.
    CommonName,
    /// The request asks for an alternative name that `allow` doesn't have: the first, by its form and its
    /// text in UTF-8, or the octets of an address.
    RequestNotAllowed(NameForm, OctetString),
    /// A common name of the subject that the request asks for may be a host's or a mailbox, or it has an
    /// emailAddress, that `allow` doesn't have: the first, by its text, which is empty where it isn't known.
    SubjectNotAllowed(OctetString),
    /// A text of the subject that the request asks for has a hidden character.
    RequestSubject,
    /// The purposes of the key are to be the request's, which asks for none, so that it would be for any
    /// (RFC 5280, 4.2.1.12).
    RequestPurposes,
    /// The signature isn't taken.
    Signature(SignatureFault),
    /// What is asked for can't be issued.
    Obstacle(Obstacle),
}

impl From<AllocError> for Fault {
    ghost from_gives = { λ _ f. f ≡ OutOfMemory };

    fn from(_error: AllocError) -> Fault {
        Fault::OutOfMemory
    }
}

impl<T: Drop> From<AllocFailed<T>> for Fault {
    ghost from_gives = { λ _ f. f ≡ OutOfMemory };

    fn from(_error: AllocFailed<T>) -> Fault {
        Fault::OutOfMemory
    }
}

impl From<asn1_core::OutOfMemory> for Fault {
    ghost from_gives = { λ _ f. f ≡ OutOfMemory };

    fn from(_error: asn1_core::OutOfMemory) -> Fault {
        Fault::OutOfMemory
    }
}

impl From<PemError> for Fault {
    ghost from_gives = { λ e f. f ≡ fault_of_text e };

    fn from(error: PemError) -> Fault {
        match error {
            PemError::OutOfMemory => Fault::OutOfMemory,
            PemError::Refused(refusal) => Fault::Blocks(refusal),
        }
    }
}

impl From<OidFault> for Fault {
    ghost from_gives = { λ e f. f ≡ fault_of_arcs e };

    fn from(error: OidFault) -> Fault {
        match error {
            OidFault::OutOfMemory => Fault::OutOfMemory,
            _ => Fault::Obstacle(Obstacle::Identifier),
        }
    }
}

/// The error as a fault.
fn fault_of(error: &Error) -> Fault
    ensures { result ≡ fault_of error.now }
{
    match error {
        Error::OutOfMemory => Fault::OutOfMemory,
        Error::CouldNotParseCertificate => Fault::Obstacle(Obstacle::NotRead),
        Error::CouldNotParseCertificationRequest => Fault::Obstacle(Obstacle::RequestNotRead),
        Error::InvalidNameType => Fault::Obstacle(Obstacle::NameType),
        Error::InvalidAsn1String(_) => Fault::Obstacle(Obstacle::Text),
        Error::InvalidIpAddressOctetLength(_) => Fault::Obstacle(Obstacle::AddressLength),
        Error::UnsupportedExtension => Fault::Obstacle(Obstacle::Extension),
        Error::UnsupportedSignatureAlgorithm => Fault::Obstacle(Obstacle::Algorithm),
        Error::Time => Fault::Obstacle(Obstacle::Time),
        Error::UnsupportedInCsr => Fault::Obstacle(Obstacle::NoPlace),
        Error::InvalidCrlNextUpdate => Fault::Obstacle(Obstacle::NextUpdate),
        Error::IssuerNotCrlSigner => Fault::Obstacle(Obstacle::NotCrlSigner),
        Error::EmptyCrlDistributionPointUris => Fault::Obstacle(Obstacle::EmptyPoint),
        Error::InvalidObjectIdentifier => Fault::Obstacle(Obstacle::Identifier),
        Error::InvalidAttributeValues => Fault::Obstacle(Obstacle::AttributeValues),
        Error::InvalidCertificationRequestSignature | Error::RemoteKeyError | Error::X509(_) => {
            Fault::Obstacle(Obstacle::Other)
        }
    }
}

impl From<Error> for Fault {
    ghost from_gives = { λ e f. f ≡ fault_of e };

    fn from(error: Error) -> Fault {
        fault_of(&error)
    }
}
