//! What is asked about a path (RFC 5280, 6.1.1), and what a valid one gives (6.1.6).
use asn1_core::ObjectIdentifier;
use der_tree::SequenceOf;
use jiff::civil::DateTime;
use path_revocation::RevocationStatus;
use pkix_cert::{GeneralSubtrees, SubjectPublicKeyInfo};
use pkix_name::Name;

/// The name and the key that are trusted (RFC 5280, 6.1.1 (d)).
#[derive(Debug, Drop)]
pub struct TrustAnchor {
    /// The issuer of the first certificate.
    pub name: Name,
    /// The key under which its signature is.
    pub key_info: SubjectPublicKeyInfo,
}

/// What is asked about a path (RFC 5280, 6.1.1).
#[derive(Debug, Drop)]
pub struct PathInputs {
    /// The time, in UTC (b).
    pub at: DateTime,
    /// The policies that the user accepts; None is any-policy, and so is a set with anyPolicy in it
    /// (c).
    pub user_initial_policy_set: Option<SequenceOf<ObjectIdentifier>>,
    /// Whom the user trusts (d).
    pub anchor: TrustAnchor,
    /// Whether policies may not be mapped (e).
    pub initial_policy_mapping_inhibit: bool,
    /// Whether the path has to be valid for a policy of the user's (f).
    pub initial_explicit_policy: bool,
    /// Whether anyPolicy doesn't count in certificates (g).
    pub initial_any_policy_inhibit: bool,
    /// The names that certificates may have: any of a form that none of these has (h).
    pub initial_permitted_subtrees: GeneralSubtrees,
    /// The names that no certificate may have (i).
    pub initial_excluded_subtrees: GeneralSubtrees,
    /// What is known of the revocation of certificate 1, 2 and so on. That of a certificate after the
    /// last of these is undetermined. `None` where revocation isn't asked (6.1.3 (a) (3)).
    pub statuses: Option<SequenceOf<RevocationStatus>>,
}

/// What a valid path gives (RFC 5280, 6.1.6).
#[derive(Debug, Drop)]
pub struct ValidPath {
    /// The policies that its authorities agree on.
    pub authority_constrained_policies: SequenceOf<ObjectIdentifier>,
    /// Those of them that the user accepts.
    pub user_constrained_policies: SequenceOf<ObjectIdentifier>,
    /// The working public key, with its algorithm and its parameters.
    pub key_info: SubjectPublicKeyInfo,
}
