//! The identifiers of algorithms and curves, as their arcs.

// ANSI X9.62 (RFC 3279, 2.2.3 and 2.3.5).
/// The kinds of fields (1.2.840.10045.1).
pub const ID_FIELD_TYPE: &[u32] = &[1, 2, 840, 10045, 1];

/// Fields of a prime number of elements (1.2.840.10045.1.1).
pub const PRIME_FIELD: &[u32] = &[1, 2, 840, 10045, 1, 1];

/// Fields of 2^m elements (1.2.840.10045.1.2).
pub const CHARACTERISTIC_TWO_FIELD: &[u32] = &[1, 2, 840, 10045, 1, 2];

/// The kinds of bases of such a field (1.2.840.10045.1.2.3).
pub const ID_CHARACTERISTIC_TWO_BASIS: &[u32] = &[1, 2, 840, 10045, 1, 2, 3];

/// Gaussian normal bases (1.2.840.10045.1.2.3.1).
pub const GN_BASIS: &[u32] = &[1, 2, 840, 10045, 1, 2, 3, 1];

/// The kinds of public keys (1.2.840.10045.2).
pub const ID_PUBLIC_KEY_TYPE: &[u32] = &[1, 2, 840, 10045, 2];

/// Public keys on a curve (1.2.840.10045.2.1).
pub const ID_EC_PUBLIC_KEY: &[u32] = &[1, 2, 840, 10045, 2, 1];

/// Named curves (1.2.840.10045.3).
pub const ELLIPTIC_CURVE: &[u32] = &[1, 2, 840, 10045, 3];

/// Named curves over fields of 2^m elements (1.2.840.10045.3.0).
pub const C_TWO_CURVE: &[u32] = &[1, 2, 840, 10045, 3, 0];

/// Named curves over fields of a prime number of elements (1.2.840.10045.3.1).
pub const PRIME: &[u32] = &[1, 2, 840, 10045, 3, 1];

/// The kinds of signatures with a key on a curve (1.2.840.10045.4).
pub const ID_EC_SIG_TYPE: &[u32] = &[1, 2, 840, 10045, 4];

/// ECDSA with SHA-1 (1.2.840.10045.4.1).
pub const ECDSA_WITH_SHA1: &[u32] = &[1, 2, 840, 10045, 4, 1];

/// The curve c2pnb163v1 (1.2.840.10045.3.0.1).
pub const C2PNB163V1: &[u32] = &[1, 2, 840, 10045, 3, 0, 1];

/// The curve c2pnb163v2 (1.2.840.10045.3.0.2).
pub const C2PNB163V2: &[u32] = &[1, 2, 840, 10045, 3, 0, 2];

/// The curve c2pnb163v3 (1.2.840.10045.3.0.3).
pub const C2PNB163V3: &[u32] = &[1, 2, 840, 10045, 3, 0, 3];

/// The curve c2pnb176w1 (1.2.840.10045.3.0.4).
pub const C2PNB176W1: &[u32] = &[1, 2, 840, 10045, 3, 0, 4];

/// The curve c2tnb191v1 (1.2.840.10045.3.0.5).
pub const C2TNB191V1: &[u32] = &[1, 2, 840, 10045, 3, 0, 5];

/// The curve c2tnb191v2 (1.2.840.10045.3.0.6).
pub const C2TNB191V2: &[u32] = &[1, 2, 840, 10045, 3, 0, 6];

/// The curve c2tnb191v3 (1.2.840.10045.3.0.7).
pub const C2TNB191V3: &[u32] = &[1, 2, 840, 10045, 3, 0, 7];

/// The curve c2onb191v4 (1.2.840.10045.3.0.8).
pub const C2ONB191V4: &[u32] = &[1, 2, 840, 10045, 3, 0, 8];

/// The curve c2onb191v5 (1.2.840.10045.3.0.9).
pub const C2ONB191V5: &[u32] = &[1, 2, 840, 10045, 3, 0, 9];

/// The curve c2pnb208w1 (1.2.840.10045.3.0.10).
pub const C2PNB208W1: &[u32] = &[1, 2, 840, 10045, 3, 0, 10];

/// The curve c2tnb239v1 (1.2.840.10045.3.0.11).
pub const C2TNB239V1: &[u32] = &[1, 2, 840, 10045, 3, 0, 11];

/// The curve c2tnb239v2 (1.2.840.10045.3.0.12).
pub const C2TNB239V2: &[u32] = &[1, 2, 840, 10045, 3, 0, 12];

/// The curve c2tnb239v3 (1.2.840.10045.3.0.13).
pub const C2TNB239V3: &[u32] = &[1, 2, 840, 10045, 3, 0, 13];

/// The curve c2onb239v4 (1.2.840.10045.3.0.14).
pub const C2ONB239V4: &[u32] = &[1, 2, 840, 10045, 3, 0, 14];

/// The curve c2onb239v5 (1.2.840.10045.3.0.15).
pub const C2ONB239V5: &[u32] = &[1, 2, 840, 10045, 3, 0, 15];

/// The curve c2pnb272w1 (1.2.840.10045.3.0.16).
pub const C2PNB272W1: &[u32] = &[1, 2, 840, 10045, 3, 0, 16];

/// The curve c2pnb304w1 (1.2.840.10045.3.0.17).
pub const C2PNB304W1: &[u32] = &[1, 2, 840, 10045, 3, 0, 17];

/// The curve c2tnb359v1 (1.2.840.10045.3.0.18).
pub const C2TNB359V1: &[u32] = &[1, 2, 840, 10045, 3, 0, 18];

/// The curve c2pnb368w1 (1.2.840.10045.3.0.19).
pub const C2PNB368W1: &[u32] = &[1, 2, 840, 10045, 3, 0, 19];

/// The curve c2tnb431r1 (1.2.840.10045.3.0.20).
pub const C2TNB431R1: &[u32] = &[1, 2, 840, 10045, 3, 0, 20];

/// The curve prime192v1 (1.2.840.10045.3.1.1).
pub const PRIME_192V1: &[u32] = &[1, 2, 840, 10045, 3, 1, 1];

/// The curve prime192v2 (1.2.840.10045.3.1.2).
pub const PRIME_192V2: &[u32] = &[1, 2, 840, 10045, 3, 1, 2];

/// The curve prime192v3 (1.2.840.10045.3.1.3).
pub const PRIME_192V3: &[u32] = &[1, 2, 840, 10045, 3, 1, 3];

/// The curve prime239v1 (1.2.840.10045.3.1.4).
pub const PRIME_239V1: &[u32] = &[1, 2, 840, 10045, 3, 1, 4];

/// The curve prime239v2 (1.2.840.10045.3.1.5).
pub const PRIME_239V2: &[u32] = &[1, 2, 840, 10045, 3, 1, 5];

/// The curve prime239v3 (1.2.840.10045.3.1.6).
pub const PRIME_239V3: &[u32] = &[1, 2, 840, 10045, 3, 1, 6];

/// The curve prime256v1 (1.2.840.10045.3.1.7).
pub const PRIME_256V1: &[u32] = &[1, 2, 840, 10045, 3, 1, 7];

// RFC 3279, 2.1, 2.2 and 2.3.
/// SHA-1 (1.3.14.3.2.26).
pub const ID_SHA1: &[u32] = &[1, 3, 14, 3, 2, 26];

/// Diffie-Hellman keys (1.2.840.10046.2.1).
pub const DH_PUBLIC_NUMBER: &[u32] = &[1, 2, 840, 10046, 2, 1];

/// DSA keys (1.2.840.10040.4.1).
pub const ID_DSA: &[u32] = &[1, 2, 840, 10040, 4, 1];

/// DSA with SHA-1 (1.2.840.10040.4.3).
pub const ID_DSA_WITH_SHA1: &[u32] = &[1, 2, 840, 10040, 4, 3];

/// KEA keys (2.16.840.1.101.2.1.1.22).
pub const ID_KEY_EXCHANGE_ALGORITHM: &[u32] = &[2, 16, 840, 1, 101, 2, 1, 1, 22];

/// MD2 (1.2.840.113549.2.2).
pub const MD2: &[u32] = &[1, 2, 840, 113549, 2, 2];

/// MD5 (1.2.840.113549.2.5).
pub const MD5: &[u32] = &[1, 2, 840, 113549, 2, 5];

/// The identifiers of PKCS #1 (1.2.840.113549.1.1).
pub const PKCS1: &[u32] = &[1, 2, 840, 113549, 1, 1];

/// RSA keys (1.2.840.113549.1.1.1).
pub const RSA_ENCRYPTION: &[u32] = &[1, 2, 840, 113549, 1, 1, 1];

/// RSA with MD2 (1.2.840.113549.1.1.2).
pub const MD2_WITH_RSA_ENCRYPTION: &[u32] = &[1, 2, 840, 113549, 1, 1, 2];

/// RSA with MD5 (1.2.840.113549.1.1.4).
pub const MD5_WITH_RSA_ENCRYPTION: &[u32] = &[1, 2, 840, 113549, 1, 1, 4];

/// RSA with SHA-1 (1.2.840.113549.1.1.5).
pub const SHA1_WITH_RSA_ENCRYPTION: &[u32] = &[1, 2, 840, 113549, 1, 1, 5];
