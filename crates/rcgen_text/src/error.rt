ghost use Rattle.std.specs.Prelude.{◌≡◌, true, IfOk};
ghost use Rattle.rcgen_text.specs.Causes.{origin_of, text_cause};
ghost use Rattle.rcgen_text.specs.contracts.error.ErrorPartialEq.TheImpl.{ghosts as equality};
ghost use Rattle.rcgen_text.specs.contracts.error.InvalidAsn1StringPartialEq.TheImpl.{ghosts as invalid_equality};
ghost use Rattle.rcgen_text.specs.declared.error.Error.TheVariants.{OutOfMemory};

use std::alloc::{AllocError, AllocFailed, Global};
use std::fmt;

/// Why nothing was made, read or issued.
#[derive(Clone, Debug, PartialEq, Eq, Drop)]
pub enum Error {
    /// Bytes aren't a certificate, or are one that parameters can't say.
    CouldNotParseCertificate,
    /// Bytes aren't a certification request, or are one that parameters can't say.
    CouldNotParseCertificationRequest,
    /// The signature of a request doesn't verify (RFC 2986, 4.2).
    InvalidCertificationRequestSignature,
    /// An alternative name is of a kind that isn't issued (RFC 5280, 4.2.1.6).
    InvalidNameType,
    /// A text has a character that its type lacks.
    InvalidAsn1String(InvalidAsn1String),
    /// An IP address has this number of octets, neither 4 nor 16 (RFC 5280, 4.2.1.6).
    InvalidIpAddressOctetLength(usize),
    /// A request asks for an extension that isn't known.
    UnsupportedExtension,
    /// No algorithm has this identifier.
    UnsupportedSignatureAlgorithm,
    /// A time has no form in UTC, since its year there is outside 0 to 9999, or a date is none.
    Time,
    /// The key that was to sign refused: the issuer's, or of a request (RFC 2986, 4.2) and of a
    /// certificate that is signed by its own key the subject's.
    RemoteKeyError,
    /// A request has no place for a parameter.
    UnsupportedInCsr,
    /// The next update of a list isn't later than this one (RFC 5280, 5.1.2.5).
    InvalidCrlNextUpdate,
    /// The issuer's key isn't for signing lists (RFC 5280, 4.2.1.3).
    IssuerNotCrlSigner,
    /// A distribution point has no URI (RFC 5280, 4.2.1.13).
    EmptyCrlDistributionPointUris,
    /// A public key can't be read, and why.
    X509(String),
    /// Arcs aren't an object identifier (X.660, 7.6).
    InvalidObjectIdentifier,
    /// The values of an attribute aren't one sorted SET OF (RFC 2986, 4.1).
    InvalidAttributeValues,
    /// No memory was left.
    OutOfMemory,
}

/// A text that isn't of its type: the type, and the text or what is wrong with its bytes.
#[derive(Clone, Debug, PartialEq, Eq, Drop)]
pub enum InvalidAsn1String {
    /// No PrintableString.
    PrintableString(String),
    /// No UniversalString.
    UniversalString(String),
    /// No IA5String.
    Ia5String(String),
    /// No TeletexString.
    TeletexString(String),
    /// No BMPString.
    BmpString(String),
}

// no `TryClone`: a copied `String` may have another capacity
impl Error {
    /// The same error, its text copied.
    #[tactic(auto, using(crate::proofs::Equality::errors_equal))]
    pub fn try_clone(&self, _alloc: Global) -> Result<Error, asn1_core::OutOfMemory>
        ensures origin { IfOk result (λ copy. origin_of copy ≡ origin_of self.now) }
        ensures equal { IfOk result (λ copy. equality.eq copy self.now ≡ true) }
    {
        Ok(self.clone()?)
    }
}

// no `TryClone`: a copied `String` may have another capacity
impl InvalidAsn1String {
    /// The same, its text copied.
    #[tactic(auto, using(crate::proofs::Equality::invalid_equal))]
    pub fn try_clone(&self, _alloc: Global) -> Result<InvalidAsn1String, asn1_core::OutOfMemory>
        ensures cause { IfOk result (λ copy. text_cause copy ≡ text_cause self.now) }
        ensures equal { IfOk result (λ copy. invalid_equality.eq copy self.now ≡ true) }
    {
        Ok(self.clone()?)
    }
}

impl fmt::Display for Error {
    fn fmt<W: fmt::Write>(&self, f: &mut fmt::Formatter<W>) -> fmt::Result {
        match self {
            Error::CouldNotParseCertificate => write!(f, "Could not parse certificate"),
            Error::CouldNotParseCertificationRequest => write!(
                f,
                "Could not parse certificate signing request"
            ),
            Error::InvalidCertificationRequestSignature => write!(f, "Invalid CSR signature"),
            Error::InvalidNameType => write!(f, "Invalid subject alternative name type"),
            Error::InvalidAsn1String(invalid) => write!(f, "{invalid}"),
            Error::InvalidIpAddressOctetLength(octets) => write!(
                f,
                "Invalid IP address octet length of {octets} bytes"
            ),
            Error::UnsupportedExtension => write!(f, "Unsupported extension requested in CSR"),
            Error::UnsupportedSignatureAlgorithm => write!(
                f,
                "The requested signature algorithm is not supported"
            ),
            Error::Time => write!(f, "Time error"),
            Error::RemoteKeyError => write!(f, "Remote key error"),
            Error::UnsupportedInCsr => write!(f, "Certificate parameter unsupported in CSR"),
            Error::InvalidCrlNextUpdate => write!(f, "Invalid CRL next update parameter"),
            Error::IssuerNotCrlSigner => write!(
                f,
                "CRL issuer must specify no key usage, or key usage including cRLSign"
            ),
            Error::EmptyCrlDistributionPointUris => write!(
                f,
                "CRL distribution points must include at least one URI"
            ),
            Error::X509(why) => write!(f, "X.509 parsing error: {why}"),
            Error::InvalidObjectIdentifier => write!(f, "Invalid object identifier"),
            Error::InvalidAttributeValues => write!(f, "Invalid attribute values"),
            Error::OutOfMemory => write!(f, "Out of memory"),
        }
    }
}

impl fmt::Display for InvalidAsn1String {
    fn fmt<W: fmt::Write>(&self, f: &mut fmt::Formatter<W>) -> fmt::Result {
        match self {
            InvalidAsn1String::PrintableString(text) => {
                write!(f, "Invalid PrintableString: '{text}'")
            }
            InvalidAsn1String::UniversalString(text) => {
                write!(f, "Invalid UniversalString: '{text}'")
            }
            InvalidAsn1String::Ia5String(text) => write!(f, "Invalid IA5String: '{text}'"),
            InvalidAsn1String::TeletexString(text) => {
                write!(f, "Invalid TeletexString: '{text}'")
            }
            InvalidAsn1String::BmpString(text) => write!(f, "Invalid BMPString: '{text}'"),
        }
    }
}

impl From<AllocError> for Error {
    ghost from_gives = { λ _ e. e ≡ OutOfMemory };

    fn from(_e: AllocError) -> Error {
        Error::OutOfMemory
    }
}

impl<T: Drop> From<AllocFailed<T>> for Error {
    ghost from_gives = { λ _ e. e ≡ OutOfMemory };

    fn from(_e: AllocFailed<T>) -> Error {
        Error::OutOfMemory
    }
}

impl From<asn1_core::OutOfMemory> for Error {
    ghost from_gives = { λ _ e. e ≡ OutOfMemory };

    fn from(_e: asn1_core::OutOfMemory) -> Error {
        Error::OutOfMemory
    }
}
