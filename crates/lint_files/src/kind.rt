//! What a block is, by its label.
ghost use Rattle.std.specs.Prelude.{◌≡◌};
ghost use Rattle.lint_files.specs.Kinds.{kind_of};

/// What the octets of a block are, by its label (RFC 7468, 5 to 7, 12 and 13).
#[derive(Clone, Copy, Debug, PartialEq, Eq)]
pub(crate) enum Kind {
    Certificate,
    Request,
    List,
    AttributeCertificate,
    PublicKey,
    Other,
}

/// What a label says. `NEW CERTIFICATE REQUEST` is taken as `CERTIFICATE REQUEST` (RFC 7468, 7), and `CRL ISSUER CERTIFICATE` is the label of
/// the certificates of other issuers of CRLs.
#[tactic(auto, unfolding(crate::specs::Kinds::kind_of))]
pub(crate) fn kind_of(label: &[u8]) -> Kind
    ensures { result ≡ kind_of label.now }
{
    if label == b"CERTIFICATE".as_slice() {
        return Kind::Certificate;
    }
    if label == b"CRL ISSUER CERTIFICATE".as_slice() {
        return Kind::Certificate;
    }
    if label == b"CERTIFICATE REQUEST".as_slice() {
        return Kind::Request;
    }
    if label == b"NEW CERTIFICATE REQUEST".as_slice() {
        return Kind::Request;
    }
    if label == b"X509 CRL".as_slice() {
        return Kind::List;
    }
    if label == b"ATTRIBUTE CERTIFICATE".as_slice() {
        return Kind::AttributeCertificate;
    }
    if label == b"PUBLIC KEY".as_slice() {
        return Kind::PublicKey;
    }
    Kind::Other
}
