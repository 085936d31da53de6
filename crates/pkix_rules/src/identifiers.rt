//! Identifiers that rules look for: of extensions, attributes, purposes and algorithms.

/// Basic and further extensions of certificates, lists, entries and attribute certificates (RFC 5280, 4.2, 5.2, 5.3; RFC 5755, 4.3).
pub(crate) const KNOWN_EXTENSIONS: &[&[u32]] = &[
    &[2, 5, 29, 9],
    &[2, 5, 29, 14],
    &[2, 5, 29, 15],
    &[2, 5, 29, 16],
    &[2, 5, 29, 17],
    &[2, 5, 29, 18],
    &[2, 5, 29, 19],
    &[2, 5, 29, 30],
    &[2, 5, 29, 31],
    &[2, 5, 29, 32],
    &[2, 5, 29, 33],
    &[2, 5, 29, 35],
    &[2, 5, 29, 36],
    &[2, 5, 29, 37],
    &[2, 5, 29, 46],
    &[2, 5, 29, 54],
    &[1, 3, 6, 1, 5, 5, 7, 1, 1],
    &[1, 3, 6, 1, 5, 5, 7, 1, 11],
    &[1, 3, 6, 1, 5, 5, 7, 1, 24],
    &[1, 3, 6, 1, 5, 5, 7, 48, 1, 5],
];

/// Extensions of entries of lists (RFC 5280, 5.3).
pub(crate) const KNOWN_ENTRY_EXTENSIONS: &[&[u32]] = &[
    &[2, 5, 29, 21],
    &[2, 5, 29, 24],
    &[2, 5, 29, 29],
];

/// Extensions of lists (RFC 5280, 5.2).
pub(crate) const KNOWN_LIST_EXTENSIONS: &[&[u32]] = &[
    &[2, 5, 29, 18],
    &[2, 5, 29, 20],
    &[2, 5, 29, 27],
    &[2, 5, 29, 28],
    &[2, 5, 29, 35],
    &[2, 5, 29, 46],
    &[1, 3, 6, 1, 5, 5, 7, 1, 1],
];

/// Attributes of the subject in a certificate (RFC 5280, 4.2.1.8).
pub(crate) const SUBJECT_DIRECTORY_ATTRIBUTES: &[u32] = &[2, 5, 29, 9];

/// Where more on the issuer is found (RFC 5280, 4.2.2.1).
pub(crate) const AUTHORITY_INFO_ACCESS: &[u32] = &[1, 3, 6, 1, 5, 5, 7, 1, 1];

/// Where more on the subject is found (RFC 5280, 4.2.2.2).
pub(crate) const SUBJECT_INFO_ACCESS: &[u32] = &[1, 3, 6, 1, 5, 5, 7, 1, 11];

/// The type of country names (RFC 5280, A.1).
pub(crate) const COUNTRY_NAMES: &[&[u32]] = &[&[2, 5, 4, 6]];

/// The type of e-mail addresses in names, emailAddress of PKCS #9 (RFC 5280, A.1).
pub(crate) const EMAIL_ADDRESS: &[u32] = &[1, 2, 840, 113549, 1, 9, 1];

/// The names of principals: Windows' userPrincipalName, and id-pkinit-san of Kerberos (RFC 4556, 3.2.2).
pub(crate) const PRINCIPAL_NAMES: &[&[u32]] = &[
    &[1, 3, 6, 1, 4, 1, 311, 20, 2, 3],
    &[1, 3, 6, 1, 5, 2, 2],
];

/// The types of labels of a domain name and of mailboxes (RFC 5280, A.1; RFC 4519, 2.4).
pub(crate) const IA5_TEXTS: &[&[u32]] = &[
    &[0, 9, 2342, 19200300, 100, 1, 25],
    &[1, 2, 840, 113549, 1, 9, 1],
];

/// The types of serial numbers and qualifiers in names (RFC 5280, A.1).
pub(crate) const PRINTABLE_TEXTS: &[&[u32]] = &[&[2, 5, 4, 5], &[2, 5, 4, 46]];

/// The types whose values are of the CHOICE DirectoryString (RFC 5280, A.1): common name, surname, place, state, organization, unit, title,
/// name, given name, initials, generation qualifier and pseudonym.
pub(crate) const DIRECTORY_TEXTS: &[&[u32]] = &[
    &[2, 5, 4, 3],
    &[2, 5, 4, 4],
    &[2, 5, 4, 7],
    &[2, 5, 4, 8],
    &[2, 5, 4, 10],
    &[2, 5, 4, 11],
    &[2, 5, 4, 12],
    &[2, 5, 4, 41],
    &[2, 5, 4, 42],
    &[2, 5, 4, 43],
    &[2, 5, 4, 44],
    &[2, 5, 4, 65],
];

/// Of these the ones of at most 64 characters: common name, organization, unit and title (RFC 5280, A.1, ub-common-name and others).
pub(crate) const TEXTS_TO_64: &[&[u32]] = &[
    &[2, 5, 4, 3],
    &[2, 5, 4, 10],
    &[2, 5, 4, 11],
    &[2, 5, 4, 12],
];

/// Of these the ones of at most 128 characters: place, state and pseudonym (RFC 5280, A.1, ub-locality-name and others).
pub(crate) const TEXTS_TO_128: &[&[u32]] = &[&[2, 5, 4, 7], &[2, 5, 4, 8], &[2, 5, 4, 65]];

/// The purpose of servers, id-kp-serverAuth (RFC 5280, 4.2.1.12).
pub(crate) const SERVER_AUTH: &[u32] = &[1, 3, 6, 1, 5, 5, 7, 3, 1];

/// The purposes of clients, of who signs code, of e-mail and of who signs answers of OCSP (RFC 5280, 4.2.1.12).
pub(crate) const CLIENT_AUTH: &[u32] = &[1, 3, 6, 1, 5, 5, 7, 3, 2];

pub(crate) const CODE_SIGNING: &[u32] = &[1, 3, 6, 1, 5, 5, 7, 3, 3];

pub(crate) const EMAIL_PROTECTION: &[u32] = &[1, 3, 6, 1, 5, 5, 7, 3, 4];

pub(crate) const OCSP_SIGNING: &[u32] = &[1, 3, 6, 1, 5, 5, 7, 3, 9];

/// The extension of an OCSP responder whose revocation isn't checked, id-pkix-ocsp-nocheck (RFC 6960, 4.2.2.2.1).
pub(crate) const OCSP_NO_CHECK: &[u32] = &[1, 3, 6, 1, 5, 5, 7, 48, 1, 5];

/// Any purpose, anyExtendedKeyUsage (RFC 5280, 4.2.1.12).
pub(crate) const ANY_PURPOSE: &[u32] = &[2, 5, 29, 37, 0];

/// The purpose of who stamps times, id-kp-timeStamping (RFC 5280, 4.2.1.12).
pub(crate) const TIME_STAMPING: &[u32] = &[1, 3, 6, 1, 5, 5, 7, 3, 8];

/// Any policy (RFC 5280, 4.2.1.4).
pub(crate) const ANY_POLICY: &[u32] = &[2, 5, 29, 32, 0];

/// RSA keys (RFC 3279, 2.3.1).
pub(crate) const RSA_KEYS: &[&[u32]] = &[&[1, 2, 840, 113549, 1, 1, 1]];

/// Keys of elliptic curves (RFC 5480, 2.1.1).
pub(crate) const EC_KEYS: &[&[u32]] = &[&[1, 2, 840, 10045, 2, 1]];

/// Ed25519 and Ed448 (RFC 8410, 3).
pub(crate) const ED25519_KEYS: &[&[u32]] = &[&[1, 3, 101, 112]];

pub(crate) const ED448_KEYS: &[&[u32]] = &[&[1, 3, 101, 113]];

/// Signatures of RSA whose parameters are NULL (RFC 3279, 2.2.1; RFC 4055, 5).
pub(crate) const RSA_SIGNATURES: &[&[u32]] = &[
    &[1, 2, 840, 113549, 1, 1, 2],
    &[1, 2, 840, 113549, 1, 1, 4],
    &[1, 2, 840, 113549, 1, 1, 5],
    &[1, 2, 840, 113549, 1, 1, 11],
    &[1, 2, 840, 113549, 1, 1, 12],
    &[1, 2, 840, 113549, 1, 1, 13],
    &[1, 2, 840, 113549, 1, 1, 14],
];

/// Signatures without parameters: ECDSA, Ed25519 and Ed448 (RFC 5758, 3.2; RFC 8410, 3).
pub(crate) const BARE_SIGNATURES: &[&[u32]] = &[
    &[1, 2, 840, 10045, 4, 1],
    &[1, 2, 840, 10045, 4, 3, 1],
    &[1, 2, 840, 10045, 4, 3, 2],
    &[1, 2, 840, 10045, 4, 3, 3],
    &[1, 2, 840, 10045, 4, 3, 4],
    &[1, 3, 101, 112],
    &[1, 3, 101, 113],
];

/// The attribute by which a request asks for extensions (RFC 2985, 5.4.2).
pub(crate) const EXTENSION_REQUEST: &[u32] = &[1, 2, 840, 113549, 1, 9, 14];

/// Extensions of attribute certificates (RFC 5755, 4.3, 7.2 and 7.4).
pub(crate) const KNOWN_ATTRIBUTE_EXTENSIONS: &[&[u32]] = &[
    &[2, 5, 29, 31],
    &[2, 5, 29, 35],
    &[2, 5, 29, 55],
    &[2, 5, 29, 56],
    &[1, 3, 6, 1, 5, 5, 7, 1, 1],
    &[1, 3, 6, 1, 5, 5, 7, 1, 4],
    &[1, 3, 6, 1, 5, 5, 7, 1, 6],
    &[1, 3, 6, 1, 5, 5, 7, 1, 10],
];

/// The extension of whom an attribute certificate is for (RFC 5755, 4.3.2).
pub(crate) const TARGET_INFORMATION: &[u32] = &[2, 5, 29, 55];

/// The extension by which audit trails name the holder (RFC 5755, 4.3.1).
pub(crate) const AUDIT_IDENTITY: &[u32] = &[1, 3, 6, 1, 5, 5, 7, 1, 4];

/// The extension by which no information on revocation is available (RFC 5755, 4.3.6).
pub(crate) const NO_REVOCATION: &[u32] = &[2, 5, 29, 56];
