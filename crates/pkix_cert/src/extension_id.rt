//! The object identifiers of extensions (RFC 5280, 4.2, 5.2, 5.3), for who writes them, reads them,
//! checks paths by them and prints them: arcs, and the octets of their DER encoding where these are
//! looked for in what was read.
ghost use Rattle.std.specs.Prelude.{ℕ, ◌<◌};
ghost use Rattle.der_tree.specs.Form.{IsDerOf};
ghost use Rattle.der_tree.specs.PrimitiveTypes.{object_identifier};
ghost use Rattle.pkix_cert.specs.ExtensionIds.{id_ce, id_ce_der};

/// Of the subject's key (RFC 5280, 4.2.1.2).
pub const ID_CE_SUBJECT_KEY_IDENTIFIER: &[u32] = &[2, 5, 29, 14];

/// What the key is for (RFC 5280, 4.2.1.3).
pub const ID_CE_KEY_USAGE: &[u32] = &[2, 5, 29, 15];

/// The subject's other names (RFC 5280, 4.2.1.6).
pub const ID_CE_SUBJECT_ALT_NAME: &[u32] = &[2, 5, 29, 17];

/// The issuer's other names (RFC 5280, 4.2.1.7).
pub const ID_CE_ISSUER_ALT_NAME: &[u32] = &[2, 5, 29, 18];

/// Whether the subject issues certificates (RFC 5280, 4.2.1.9).
pub const ID_CE_BASIC_CONSTRAINTS: &[u32] = &[2, 5, 29, 19];

/// The number of a revocation list (RFC 5280, 5.2.3).
pub const ID_CE_CRL_NUMBER: &[u32] = &[2, 5, 29, 20];

/// Why a certificate was revoked (RFC 5280, 5.3.1).
pub const ID_CE_CRL_REASONS: &[u32] = &[2, 5, 29, 21];

/// When its key became invalid (RFC 5280, 5.3.2).
pub const ID_CE_INVALIDITY_DATE: &[u32] = &[2, 5, 29, 24];

/// The list that a revocation list only adds to (RFC 5280, 5.2.4).
pub const ID_CE_DELTA_CRL_INDICATOR: &[u32] = &[2, 5, 29, 27];

/// What a revocation list covers (RFC 5280, 5.2.5).
pub const ID_CE_ISSUING_DISTRIBUTION_POINT: &[u32] = &[2, 5, 29, 28];

/// Who issued the certificate of an entry (RFC 5280, 5.3.3).
pub const ID_CE_CERTIFICATE_ISSUER: &[u32] = &[2, 5, 29, 29];

/// The names that certificates below may hold (RFC 5280, 4.2.1.10).
pub const ID_CE_NAME_CONSTRAINTS: &[u32] = &[2, 5, 29, 30];

/// Where revocation lists are (RFC 5280, 4.2.1.13).
pub const ID_CE_CRL_DISTRIBUTION_POINTS: &[u32] = &[2, 5, 29, 31];

/// Under which policies a certificate was issued (RFC 5280, 4.2.1.4).
pub const ID_CE_CERTIFICATE_POLICIES: &[u32] = &[2, 5, 29, 32];

/// The subject's policies that are equivalent to the issuer's (RFC 5280, 4.2.1.5).
pub const ID_CE_POLICY_MAPPINGS: &[u32] = &[2, 5, 29, 33];

/// Of the issuer's key (RFC 5280, 4.2.1.1).
pub const ID_CE_AUTHORITY_KEY_IDENTIFIER: &[u32] = &[2, 5, 29, 35];

/// What policies a path is to have (RFC 5280, 4.2.1.11).
pub const ID_CE_POLICY_CONSTRAINTS: &[u32] = &[2, 5, 29, 36];

/// For which purposes the key is used (RFC 5280, 4.2.1.12).
pub const ID_CE_EXT_KEY_USAGE: &[u32] = &[2, 5, 29, 37];

/// Where the lists are that add to revocation lists (RFC 5280, 4.2.1.15, 5.2.6).
pub const ID_CE_FRESHEST_CRL: &[u32] = &[2, 5, 29, 46];

/// How far anyPolicy matches other policies (RFC 5280, 4.2.1.14).
pub const ID_CE_INHIBIT_ANY_POLICY: &[u32] = &[2, 5, 29, 54];

/// The DER encoding of the identifier of the subject's key.
pub const SUBJECT_KEY_IDENTIFIER_DER: &[u8] = &[0x06, 0x03, 0x55, 0x1D, 0x0E];

/// The DER encoding of the identifier of key usage.
pub const KEY_USAGE_DER: &[u8] = &[0x06, 0x03, 0x55, 0x1D, 0x0F];

/// The DER encoding of the identifier of the subject's other names.
pub const SUBJECT_ALT_NAME_DER: &[u8] = &[0x06, 0x03, 0x55, 0x1D, 0x11];

/// The DER encoding of the identifier of the issuer's other names.
pub const ISSUER_ALT_NAME_DER: &[u8] = &[0x06, 0x03, 0x55, 0x1D, 0x12];

/// The DER encoding of the identifier of basic constraints.
pub const BASIC_CONSTRAINTS_DER: &[u8] = &[0x06, 0x03, 0x55, 0x1D, 0x13];

/// The DER encoding of the identifier of name constraints.
pub const NAME_CONSTRAINTS_DER: &[u8] = &[0x06, 0x03, 0x55, 0x1D, 0x1E];

/// The DER encoding of the identifier of distribution points of revocation lists.
pub const CRL_DISTRIBUTION_POINTS_DER: &[u8] = &[0x06, 0x03, 0x55, 0x1D, 0x1F];

/// The DER encoding of the identifier of certificate policies.
pub const CERTIFICATE_POLICIES_DER: &[u8] = &[0x06, 0x03, 0x55, 0x1D, 0x20];

/// The DER encoding of the identifier of policy mappings.
pub const POLICY_MAPPINGS_DER: &[u8] = &[0x06, 0x03, 0x55, 0x1D, 0x21];

/// The DER encoding of the identifier of policy constraints.
pub const POLICY_CONSTRAINTS_DER: &[u8] = &[0x06, 0x03, 0x55, 0x1D, 0x24];

/// The DER encoding of the identifier of extended key usage.
pub const EXT_KEY_USAGE_DER: &[u8] = &[0x06, 0x03, 0x55, 0x1D, 0x25];

/// The DER encoding of the identifier of distribution points of lists that add to others.
pub const FRESHEST_CRL_DER: &[u8] = &[0x06, 0x03, 0x55, 0x1D, 0x2E];

/// The DER encoding of the identifier of the bound on anyPolicy.
pub const INHIBIT_ANY_POLICY_DER: &[u8] = &[0x06, 0x03, 0x55, 0x1D, 0x36];

/// A law: the octets under id-ce are the DER encoding of its arcs.
pub fn extension_ids_are_encoded()
    ensures { (n : ℕ) → n < 128 → IsDerOf object_identifier (id_ce n) (id_ce_der n) }
{}
