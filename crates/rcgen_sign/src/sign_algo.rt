ghost use Rattle.std.specs.Prelude.{◌≡◌, ◌&&◌, ◌↔◌, ◌++◌, true, find, nat_eq, ok_or, Contains, IfSome, MatchOption, None, Some};
ghost use Rattle.std.specs.Cmp.Lexicographic.{pointwise};
ghost use Rattle.der_tree.specs.Form.{IsDerOf};
ghost use Rattle.der_tree.specs.PrimitiveTypes.{null, object_identifier};
ghost use Rattle.rcgen_text.specs.declared.error.Error.TheVariants.{UnsupportedSignatureAlgorithm};
ghost use Rattle.rcgen_sign.specs.contracts.sign_algo.SignatureAlgorithmPartialEq.TheImpl.{ghosts as equality};
ghost use Rattle.rcgen_sign.specs.declared.sign_algo.SignatureAlgorithm.{SignatureAlgorithm};
ghost use Rattle.rcgen_sign.specs.Algorithms as row;
ghost use Rattle.rcgen_sign.specs.Algorithms.{row_of, signature_arcs, signature_null, signature_parameters, key_arcs, key_parameters, key_algorithm_value, key_element};
ghost use Rattle.rcgen_sign.specs.KeyInfos.{key_algorithm};
ghost use Rattle.rcgen_sign.specs.Listed.{identified_by, listed, unlisted, signed_with, keyed_with, same_key_algorithm};
ghost use Rattle.std.proofs.Common.{rules};

use crate::key_info::KeyAlgorithm;
use asn1_core::{ObjectIdentifier, TryClone};
use rcgen_text::Error;
use std::fmt;

/// A signature algorithm: the identifier that certificates name its signatures by, and the
/// identifier of its keys (RFC 5280, 4.1.1.2, 4.1.2.7). There are no others than the constants
/// `PKCS_RSA_SHA256` to `PKCS_PSS_ONLY_SHA512`.
#[derive(Clone, Copy, PartialEq, Eq, Hash)]
pub struct SignatureAlgorithm {
    scheme: Scheme,
}

#[derive(Clone, Copy, PartialEq, Eq, Hash)]
enum Scheme {
    RsaSha256,
    RsaSha384,
    RsaSha512,
    EcdsaP256Sha256,
    EcdsaP384Sha384,
    EcdsaP521Sha256,
    EcdsaP521Sha384,
    EcdsaP521Sha512,
    Ed25519,
    MlDsa44,
    MlDsa65,
    MlDsa87,
    RsaPssSha256,
    RsaPssSha384,
    RsaPssSha512,
    PssSha256,
    PssSha384,
    PssSha512,
    PssOnlySha256,
    PssOnlySha384,
    PssOnlySha512,
}

/// RSA signing with PKCS #1 1.5 padding and SHA-256 hashing (RFC 4055, 5).
pub const PKCS_RSA_SHA256: SignatureAlgorithm = SignatureAlgorithm {
    scheme: Scheme::RsaSha256,
};

/// RSA signing with PKCS #1 1.5 padding and SHA-384 hashing (RFC 4055, 5).
pub const PKCS_RSA_SHA384: SignatureAlgorithm = SignatureAlgorithm {
    scheme: Scheme::RsaSha384,
};

/// RSA signing with PKCS #1 1.5 padding and SHA-512 hashing (RFC 4055, 5).
pub const PKCS_RSA_SHA512: SignatureAlgorithm = SignatureAlgorithm {
    scheme: Scheme::RsaSha512,
};

/// ECDSA signing using the P-256 curve and SHA-256 hashing (RFC 5758, 3.2).
pub const PKCS_ECDSA_P256_SHA256: SignatureAlgorithm = SignatureAlgorithm {
    scheme: Scheme::EcdsaP256Sha256,
};

/// ECDSA signing using the P-384 curve and SHA-384 hashing (RFC 5758, 3.2).
pub const PKCS_ECDSA_P384_SHA384: SignatureAlgorithm = SignatureAlgorithm {
    scheme: Scheme::EcdsaP384Sha384,
};

/// ECDSA signing using the P-521 curve and SHA-256 hashing (RFC 5758, 3.2). TLS 1.3 lacks it.
pub const PKCS_ECDSA_P521_SHA256: SignatureAlgorithm = SignatureAlgorithm {
    scheme: Scheme::EcdsaP521Sha256,
};

/// ECDSA signing using the P-521 curve and SHA-384 hashing (RFC 5758, 3.2). TLS 1.3 lacks it.
pub const PKCS_ECDSA_P521_SHA384: SignatureAlgorithm = SignatureAlgorithm {
    scheme: Scheme::EcdsaP521Sha384,
};

/// ECDSA signing using the P-521 curve and SHA-512 hashing (RFC 5758, 3.2).
pub const PKCS_ECDSA_P521_SHA512: SignatureAlgorithm = SignatureAlgorithm {
    scheme: Scheme::EcdsaP521Sha512,
};

/// ED25519 curve signing (RFC 8410).
pub const PKCS_ED25519: SignatureAlgorithm = SignatureAlgorithm {
    scheme: Scheme::Ed25519,
};

/// ML-DSA-44 signing (RFC 9881).
pub const PKCS_ML_DSA_44: SignatureAlgorithm = SignatureAlgorithm {
    scheme: Scheme::MlDsa44,
};

/// ML-DSA-65 signing (RFC 9881).
pub const PKCS_ML_DSA_65: SignatureAlgorithm = SignatureAlgorithm {
    scheme: Scheme::MlDsa65,
};

/// ML-DSA-87 signing (RFC 9881).
pub const PKCS_ML_DSA_87: SignatureAlgorithm = SignatureAlgorithm {
    scheme: Scheme::MlDsa87,
};

/// RSASSA-PSS with SHA-256, MGF1 with SHA-256 and a salt of 32 octets (RFC 4055, 3.1), by a key of rsaEncryption.
pub const PKCS_RSA_PSS_SHA256: SignatureAlgorithm = SignatureAlgorithm {
    scheme: Scheme::RsaPssSha256,
};

/// RSASSA-PSS with SHA-384, MGF1 with SHA-384 and a salt of 48 octets (RFC 4055, 3.1), by a key of rsaEncryption.
pub const PKCS_RSA_PSS_SHA384: SignatureAlgorithm = SignatureAlgorithm {
    scheme: Scheme::RsaPssSha384,
};

/// RSASSA-PSS with SHA-512, MGF1 with SHA-512 and a salt of 64 octets (RFC 4055, 3.1), by a key of rsaEncryption.
pub const PKCS_RSA_PSS_SHA512: SignatureAlgorithm = SignatureAlgorithm {
    scheme: Scheme::RsaPssSha512,
};

/// The same, by a key of id-RSASSA-PSS without parameters (RFC 4055, 3.1).
pub const PKCS_PSS_SHA256: SignatureAlgorithm = SignatureAlgorithm {
    scheme: Scheme::PssSha256,
};

/// The same, by a key of id-RSASSA-PSS without parameters (RFC 4055, 3.1).
pub const PKCS_PSS_SHA384: SignatureAlgorithm = SignatureAlgorithm {
    scheme: Scheme::PssSha384,
};

/// The same, by a key of id-RSASSA-PSS without parameters (RFC 4055, 3.1).
pub const PKCS_PSS_SHA512: SignatureAlgorithm = SignatureAlgorithm {
    scheme: Scheme::PssSha512,
};

/// The same, by a key of id-RSASSA-PSS with these parameters, which signs with no others (RFC 4055, 3.1).
pub const PKCS_PSS_ONLY_SHA256: SignatureAlgorithm = SignatureAlgorithm {
    scheme: Scheme::PssOnlySha256,
};

/// The same, by a key of id-RSASSA-PSS with these parameters, which signs with no others (RFC 4055, 3.1).
pub const PKCS_PSS_ONLY_SHA384: SignatureAlgorithm = SignatureAlgorithm {
    scheme: Scheme::PssOnlySha384,
};

/// The same, by a key of id-RSASSA-PSS with these parameters, which signs with no others (RFC 4055, 3.1).
pub const PKCS_PSS_ONLY_SHA512: SignatureAlgorithm = SignatureAlgorithm {
    scheme: Scheme::PssOnlySha512,
};

/// Those that are looked for, in this order.
const LISTED: [SignatureAlgorithm; 9] = [
    PKCS_RSA_SHA256,
    PKCS_RSA_SHA384,
    PKCS_RSA_SHA512,
    PKCS_ECDSA_P256_SHA256,
    PKCS_ECDSA_P384_SHA384,
    PKCS_ECDSA_P521_SHA256,
    PKCS_ECDSA_P521_SHA384,
    PKCS_ECDSA_P521_SHA512,
    PKCS_ED25519,
];

impl TryClone for SignatureAlgorithm {
    ghost copies_are_equal = { Prim.search rules };
}

/// The name of its constant.
impl fmt::Debug for SignatureAlgorithm {
    fn fmt<W: fmt::Write>(&self, f: &mut fmt::Formatter<W>) -> fmt::Result {
        f.write_str(match self.scheme {
            Scheme::RsaSha256 => "PKCS_RSA_SHA256",
            Scheme::RsaSha384 => "PKCS_RSA_SHA384",
            Scheme::RsaSha512 => "PKCS_RSA_SHA512",
            Scheme::EcdsaP256Sha256 => "PKCS_ECDSA_P256_SHA256",
            Scheme::EcdsaP384Sha384 => "PKCS_ECDSA_P384_SHA384",
            Scheme::EcdsaP521Sha256 => "PKCS_ECDSA_P521_SHA256",
            Scheme::EcdsaP521Sha384 => "PKCS_ECDSA_P521_SHA384",
            Scheme::EcdsaP521Sha512 => "PKCS_ECDSA_P521_SHA512",
            Scheme::Ed25519 => "PKCS_ED25519",
            Scheme::MlDsa44 => "PKCS_ML_DSA_44",
            Scheme::MlDsa65 => "PKCS_ML_DSA_65",
            Scheme::MlDsa87 => "PKCS_ML_DSA_87",
            Scheme::RsaPssSha256 => "PKCS_RSA_PSS_SHA256",
            Scheme::RsaPssSha384 => "PKCS_RSA_PSS_SHA384",
            Scheme::RsaPssSha512 => "PKCS_RSA_PSS_SHA512",
            Scheme::PssSha256 => "PKCS_PSS_SHA256",
            Scheme::PssSha384 => "PKCS_PSS_SHA384",
            Scheme::PssSha512 => "PKCS_PSS_SHA512",
            Scheme::PssOnlySha256 => "PKCS_PSS_ONLY_SHA256",
            Scheme::PssOnlySha384 => "PKCS_PSS_ONLY_SHA384",
            Scheme::PssOnlySha512 => "PKCS_PSS_ONLY_SHA512",
        })
    }
}

/// A law: each algorithm's constant is its row of the table.
pub fn algorithms()
    ensures rsa_sha256 { row_of PKCS_RSA_SHA256 ≡ row.rsa_sha256 }
    ensures rsa_sha384 { row_of PKCS_RSA_SHA384 ≡ row.rsa_sha384 }
    ensures rsa_sha512 { row_of PKCS_RSA_SHA512 ≡ row.rsa_sha512 }
    ensures ecdsa_p256_sha256 { row_of PKCS_ECDSA_P256_SHA256 ≡ row.ecdsa_p256_sha256 }
    ensures ecdsa_p384_sha384 { row_of PKCS_ECDSA_P384_SHA384 ≡ row.ecdsa_p384_sha384 }
    ensures ecdsa_p521_sha256 { row_of PKCS_ECDSA_P521_SHA256 ≡ row.ecdsa_p521_sha256 }
    ensures ecdsa_p521_sha384 { row_of PKCS_ECDSA_P521_SHA384 ≡ row.ecdsa_p521_sha384 }
    ensures ecdsa_p521_sha512 { row_of PKCS_ECDSA_P521_SHA512 ≡ row.ecdsa_p521_sha512 }
    ensures ed25519 { row_of PKCS_ED25519 ≡ row.ed25519 }
    ensures ml_dsa_44 { row_of PKCS_ML_DSA_44 ≡ row.ml_dsa_44 }
    ensures ml_dsa_65 { row_of PKCS_ML_DSA_65 ≡ row.ml_dsa_65 }
    ensures ml_dsa_87 { row_of PKCS_ML_DSA_87 ≡ row.ml_dsa_87 }
    ensures rsa_pss_sha256 { row_of PKCS_RSA_PSS_SHA256 ≡ row.rsa_pss_sha256 }
    ensures rsa_pss_sha384 { row_of PKCS_RSA_PSS_SHA384 ≡ row.rsa_pss_sha384 }
    ensures rsa_pss_sha512 { row_of PKCS_RSA_PSS_SHA512 ≡ row.rsa_pss_sha512 }
    ensures pss_sha256 { row_of PKCS_PSS_SHA256 ≡ row.pss_sha256 }
    ensures pss_sha384 { row_of PKCS_PSS_SHA384 ≡ row.pss_sha384 }
    ensures pss_sha512 { row_of PKCS_PSS_SHA512 ≡ row.pss_sha512 }
    ensures pss_only_sha256 { row_of PKCS_PSS_ONLY_SHA256 ≡ row.pss_only_sha256 }
    ensures pss_only_sha384 { row_of PKCS_PSS_ONLY_SHA384 ≡ row.pss_only_sha384 }
    ensures pss_only_sha512 { row_of PKCS_PSS_ONLY_SHA512 ≡ row.pss_only_sha512 }
{}

/// A law: the parameters of the identifiers of keys are a NULL (RFC 3279, 2.3.1), or the identifier
/// of a curve (RFC 5480, 2.1.1).
pub fn key_parameters_are_forms()
    ensures rsa { IfSome row.rsa_keys.parameters (IsDerOf null tt) }
    ensures p256 { IfSome row.p256_keys.parameters (IsDerOf object_identifier row.secp256r1) }
    ensures p384 { IfSome row.p384_keys.parameters (IsDerOf object_identifier row.secp384r1) }
    ensures p521 { IfSome row.p521_keys.parameters (IsDerOf object_identifier row.secp521r1) }
{}

/// A law: each algorithm is one of the constants, and two are equal exactly where both of their
/// identifiers are, that of signatures and that of keys.
pub fn algorithms_are_told_apart()
    ensures equal { (a b : SignatureAlgorithm) → (equality.eq a b ≡ true) ↔ (a ≡ b) }
    ensures no_other { (a : SignatureAlgorithm) → Contains (listed ++ unlisted) a }
    ensures apart { (a b : SignatureAlgorithm) → signature_arcs a ≡ signature_arcs b → signature_parameters a ≡ signature_parameters b → key_algorithm_value a ≡ key_algorithm_value b → a ≡ b }
{}

/// The first of these with that identifier of signatures.
fn first_signed_with(algorithms: &[SignatureAlgorithm], arcs: &[u64]) -> Option<SignatureAlgorithm>
    ensures { result ≡ find (λ a. pointwise nat_eq (signature_arcs a) arcs.now) algorithms.now }
{
    algorithms
        .iter()
        .copied()
        .find(|algorithm| algorithm.signature_arcs() == arcs)
}

/// Whether both are the same arcs.
fn are_same_arcs(arcs: &[u64], others: &[u32]) -> bool
    ensures { result ≡ pointwise nat_eq arcs.now others.now }
{
    match (arcs, others) {
        ([], []) => true,
        ([arc, arcs @ ..], [other, others @ ..]) => {
            *arc == u64::from(*other) && are_same_arcs(arcs, others)
        }
        _ => false,
    }
}

/// The first of these with that identifier of signatures, and whose keys are named so.
fn first_identified_by(
    algorithms: &[SignatureAlgorithm],
    signature: &ObjectIdentifier,
    key: &KeyAlgorithm,
) -> Option<SignatureAlgorithm>
    ensures { result ≡ find (λ a. pointwise nat_eq (signature_arcs a) signature.now && same_key_algorithm (key_algorithm_value a) key.now) algorithms.now }
{
    algorithms.iter().copied().find(|algorithm| {
        are_same_arcs(algorithm.signature_arcs(), signature.arcs()) && algorithm.names_keys(key)
    })
}

/// The first of these whose keys are named so.
fn first_keyed_with(
    algorithms: &[SignatureAlgorithm],
    key: &KeyAlgorithm,
) -> Option<SignatureAlgorithm>
    ensures { result ≡ find (λ a. same_key_algorithm (key_algorithm_value a) key.now) algorithms.now }
{
    algorithms
        .iter()
        .copied()
        .find(|algorithm| algorithm.names_keys(key))
}

impl SignatureAlgorithm {
    /// The first of the listed algorithms with that identifier of signatures, and else
    /// `UnsupportedSignatureAlgorithm`. Of the constants, those of ML-DSA aren't listed.
    #[tactic(auto, unfolding(crate::specs::Listed::listed))]
    pub fn from_oid(arcs: &[u64]) -> Result<SignatureAlgorithm, Error>
        ensures { result ≡ ok_or (signed_with arcs.now) UnsupportedSignatureAlgorithm }
    {
        first_signed_with(&LISTED, arcs).ok_or(Error::UnsupportedSignatureAlgorithm)
    }

    /// The first of the listed algorithms with that identifier of signatures whose keys are named
    /// so, and else `UnsupportedSignatureAlgorithm`. This distinguishes P-256 and P-521, both of which
    /// have signatures over SHA-256.
    #[tactic(auto, unfolding(crate::specs::Listed::listed))]
    pub fn from_identifiers(
        signature: &ObjectIdentifier,
        key: &KeyAlgorithm,
    ) -> Result<SignatureAlgorithm, Error>
        ensures { result ≡ ok_or (identified_by signature.now key.now) UnsupportedSignatureAlgorithm }
    {
        first_identified_by(&LISTED, signature, key).ok_or(Error::UnsupportedSignatureAlgorithm)
    }

    /// The first of the listed algorithms whose keys are named so.
    #[tactic(auto, unfolding(crate::specs::Listed::listed))]
    pub(crate) fn from_key(key: &KeyAlgorithm) -> Option<SignatureAlgorithm>
        ensures { result ≡ keyed_with key.now }
    {
        first_keyed_with(&LISTED, key)
    }

    /// Whether its keys are named so.
    fn names_keys(&self, key: &KeyAlgorithm) -> bool
        ensures { result ≡ same_key_algorithm (key_algorithm_value self.now) key.now }
    {
        self.key_arcs() == key.algorithm.arcs()
            && match (self.key_parameters(), &key.parameters) {
                (None, None) => true,
                (Some(element), Some(parameters)) => element == parameters.as_bytes(),
                _ => false,
            }
    }

    /// The arcs of the identifier of its signatures.
    pub fn signature_arcs(&self) -> &'static [u64]
        ensures { result.now ≡ signature_arcs self.now }
    {
        match self.scheme {
            Scheme::RsaSha256 => &[1, 2, 840, 113549, 1, 1, 11],
            Scheme::RsaSha384 => &[1, 2, 840, 113549, 1, 1, 12],
            Scheme::RsaSha512 => &[1, 2, 840, 113549, 1, 1, 13],
            Scheme::EcdsaP256Sha256 => &[1, 2, 840, 10045, 4, 3, 2],
            Scheme::EcdsaP384Sha384 => &[1, 2, 840, 10045, 4, 3, 3],
            Scheme::EcdsaP521Sha256 => &[1, 2, 840, 10045, 4, 3, 2],
            Scheme::EcdsaP521Sha384 => &[1, 2, 840, 10045, 4, 3, 3],
            Scheme::EcdsaP521Sha512 => &[1, 2, 840, 10045, 4, 3, 4],
            Scheme::Ed25519 => &[1, 3, 101, 112],
            Scheme::MlDsa44 => &[2, 16, 840, 1, 101, 3, 4, 3, 17],
            Scheme::MlDsa65 => &[2, 16, 840, 1, 101, 3, 4, 3, 18],
            Scheme::MlDsa87 => &[2, 16, 840, 1, 101, 3, 4, 3, 19],
            Scheme::RsaPssSha256
            | Scheme::RsaPssSha384
            | Scheme::RsaPssSha512
            | Scheme::PssSha256
            | Scheme::PssSha384
            | Scheme::PssSha512
            | Scheme::PssOnlySha256
            | Scheme::PssOnlySha384
            | Scheme::PssOnlySha512 => &[1, 2, 840, 113549, 1, 1, 10],
        }
    }

    /// Whether the parameters of its signatures' identifier are a NULL.
    pub fn signature_null(&self) -> bool
        ensures { result ≡ signature_null self.now }
    {
        matches!(
            self.scheme,
            Scheme::RsaSha256 | Scheme::RsaSha384 | Scheme::RsaSha512
        )
    }

    /// The element that the parameters of its signatures' identifier are.
    pub fn signature_parameters(&self) -> Option<&'static [u8]>
        ensures { MatchOption result (signature_parameters self.now ≡ None) (λ p. signature_parameters self.now ≡ Some p.now) }
    {
        match self.scheme {
            Scheme::RsaSha256 | Scheme::RsaSha384 | Scheme::RsaSha512 => Some(&[0x05, 0x00]),
            Scheme::RsaPssSha256 | Scheme::PssSha256 | Scheme::PssOnlySha256 => Some(&[
                0x30, 0x34, 0xA0, 0x0F, 0x30, 0x0D, 0x06, 0x09, 0x60, 0x86, 0x48, 0x01, 0x65, 0x03,
                0x04, 0x02, 0x01, 0x05, 0x00, 0xA1, 0x1C, 0x30, 0x1A, 0x06, 0x09, 0x2A, 0x86, 0x48,
                0x86, 0xF7, 0x0D, 0x01, 0x01, 0x08, 0x30, 0x0D, 0x06, 0x09, 0x60, 0x86, 0x48, 0x01,
                0x65, 0x03, 0x04, 0x02, 0x01, 0x05, 0x00, 0xA2, 0x03, 0x02, 0x01, 0x20,
            ]),
            Scheme::RsaPssSha384 | Scheme::PssSha384 | Scheme::PssOnlySha384 => Some(&[
                0x30, 0x34, 0xA0, 0x0F, 0x30, 0x0D, 0x06, 0x09, 0x60, 0x86, 0x48, 0x01, 0x65, 0x03,
                0x04, 0x02, 0x02, 0x05, 0x00, 0xA1, 0x1C, 0x30, 0x1A, 0x06, 0x09, 0x2A, 0x86, 0x48,
                0x86, 0xF7, 0x0D, 0x01, 0x01, 0x08, 0x30, 0x0D, 0x06, 0x09, 0x60, 0x86, 0x48, 0x01,
                0x65, 0x03, 0x04, 0x02, 0x02, 0x05, 0x00, 0xA2, 0x03, 0x02, 0x01, 0x30,
            ]),
            Scheme::RsaPssSha512 | Scheme::PssSha512 | Scheme::PssOnlySha512 => Some(&[
                0x30, 0x34, 0xA0, 0x0F, 0x30, 0x0D, 0x06, 0x09, 0x60, 0x86, 0x48, 0x01, 0x65, 0x03,
                0x04, 0x02, 0x03, 0x05, 0x00, 0xA1, 0x1C, 0x30, 0x1A, 0x06, 0x09, 0x2A, 0x86, 0x48,
                0x86, 0xF7, 0x0D, 0x01, 0x01, 0x08, 0x30, 0x0D, 0x06, 0x09, 0x60, 0x86, 0x48, 0x01,
                0x65, 0x03, 0x04, 0x02, 0x03, 0x05, 0x00, 0xA2, 0x03, 0x02, 0x01, 0x40,
            ]),
            Scheme::EcdsaP256Sha256
            | Scheme::EcdsaP384Sha384
            | Scheme::EcdsaP521Sha256
            | Scheme::EcdsaP521Sha384
            | Scheme::EcdsaP521Sha512
            | Scheme::Ed25519
            | Scheme::MlDsa44
            | Scheme::MlDsa65
            | Scheme::MlDsa87 => None,
        }
    }

    /// The arcs of the identifier of its keys.
    pub(crate) fn key_arcs(&self) -> &'static [u32]
        ensures { result.now ≡ key_arcs self.now }
    {
        match self.scheme {
            Scheme::RsaSha256
            | Scheme::RsaSha384
            | Scheme::RsaSha512
            | Scheme::RsaPssSha256
            | Scheme::RsaPssSha384
            | Scheme::RsaPssSha512 => { &[1, 2, 840, 113549, 1, 1, 1] }
            Scheme::EcdsaP256Sha256
            | Scheme::EcdsaP384Sha384
            | Scheme::EcdsaP521Sha256
            | Scheme::EcdsaP521Sha384
            | Scheme::EcdsaP521Sha512 => &[1, 2, 840, 10045, 2, 1],
            Scheme::Ed25519 => &[1, 3, 101, 112],
            Scheme::MlDsa44 => &[2, 16, 840, 1, 101, 3, 4, 3, 17],
            Scheme::MlDsa65 => &[2, 16, 840, 1, 101, 3, 4, 3, 18],
            Scheme::MlDsa87 => &[2, 16, 840, 1, 101, 3, 4, 3, 19],
            Scheme::PssSha256
            | Scheme::PssSha384
            | Scheme::PssSha512
            | Scheme::PssOnlySha256
            | Scheme::PssOnlySha384
            | Scheme::PssOnlySha512 => &[1, 2, 840, 113549, 1, 1, 10],
        }
    }

    /// The element that the parameters of its keys' identifier are.
    pub(crate) fn key_parameters(&self) -> Option<&'static [u8]>
        ensures { MatchOption result (key_parameters self.now ≡ None) (λ p. key_parameters self.now ≡ Some p.now) }
    {
        match self.scheme {
            Scheme::RsaSha256
            | Scheme::RsaSha384
            | Scheme::RsaSha512
            | Scheme::RsaPssSha256
            | Scheme::RsaPssSha384
            | Scheme::RsaPssSha512 => Some(&[0x05, 0x00]),
            Scheme::EcdsaP256Sha256 => Some(&[
                0x06, 0x08, 0x2A, 0x86, 0x48, 0xCE, 0x3D, 0x03, 0x01, 0x07,
            ]),
            Scheme::EcdsaP384Sha384 => Some(&[0x06, 0x05, 0x2B, 0x81, 0x04, 0x00, 0x22]),
            Scheme::EcdsaP521Sha256 | Scheme::EcdsaP521Sha384 | Scheme::EcdsaP521Sha512 => {
                Some(&[0x06, 0x05, 0x2B, 0x81, 0x04, 0x00, 0x23])
            }
            Scheme::PssOnlySha256 | Scheme::PssOnlySha384 | Scheme::PssOnlySha512 =>
                self.signature_parameters(),
            Scheme::Ed25519
            | Scheme::MlDsa44
            | Scheme::MlDsa65
            | Scheme::MlDsa87
            | Scheme::PssSha256
            | Scheme::PssSha384
            | Scheme::PssSha512 => None,
        }
    }

    /// The DER element of the identifier of its keys (RFC 5280, 4.1.1.2).
    pub fn key_element(&self) -> &'static [u8]
        ensures element { result.now ≡ key_element self.now }
        ensures form { IsDerOf key_algorithm (key_algorithm_value self.now) result.now }
    {
        match self.scheme {
            Scheme::RsaSha256
            | Scheme::RsaSha384
            | Scheme::RsaSha512
            | Scheme::RsaPssSha256
            | Scheme::RsaPssSha384
            | Scheme::RsaPssSha512 => &[
                0x30, 0x0D, 0x06, 0x09, 0x2A, 0x86, 0x48, 0x86, 0xF7, 0x0D, 0x01, 0x01, 0x01, 0x05,
                0x00,
            ],
            Scheme::EcdsaP256Sha256 => &[
                0x30, 0x13, 0x06, 0x07, 0x2A, 0x86, 0x48, 0xCE, 0x3D, 0x02, 0x01, 0x06, 0x08, 0x2A,
                0x86, 0x48, 0xCE, 0x3D, 0x03, 0x01, 0x07,
            ],
            Scheme::EcdsaP384Sha384 => &[
                0x30, 0x10, 0x06, 0x07, 0x2A, 0x86, 0x48, 0xCE, 0x3D, 0x02, 0x01, 0x06, 0x05, 0x2B,
                0x81, 0x04, 0x00, 0x22,
            ],
            Scheme::EcdsaP521Sha256 | Scheme::EcdsaP521Sha384 | Scheme::EcdsaP521Sha512 => &[
                0x30, 0x10, 0x06, 0x07, 0x2A, 0x86, 0x48, 0xCE, 0x3D, 0x02, 0x01, 0x06, 0x05, 0x2B,
                0x81, 0x04, 0x00, 0x23,
            ],
            Scheme::Ed25519 => &[0x30, 0x05, 0x06, 0x03, 0x2B, 0x65, 0x70],
            Scheme::MlDsa44 => &[
                0x30, 0x0B, 0x06, 0x09, 0x60, 0x86, 0x48, 0x01, 0x65, 0x03, 0x04, 0x03, 0x11,
            ],
            Scheme::MlDsa65 => &[
                0x30, 0x0B, 0x06, 0x09, 0x60, 0x86, 0x48, 0x01, 0x65, 0x03, 0x04, 0x03, 0x12,
            ],
            Scheme::MlDsa87 => &[
                0x30, 0x0B, 0x06, 0x09, 0x60, 0x86, 0x48, 0x01, 0x65, 0x03, 0x04, 0x03, 0x13,
            ],
            Scheme::PssSha256 | Scheme::PssSha384 | Scheme::PssSha512 => &[
                0x30, 0x0B, 0x06, 0x09, 0x2A, 0x86, 0x48, 0x86, 0xF7, 0x0D, 0x01, 0x01, 0x0A,
            ],
            Scheme::PssOnlySha256 => &[
                0x30, 0x41, 0x06, 0x09, 0x2A, 0x86, 0x48, 0x86, 0xF7, 0x0D, 0x01, 0x01, 0x0A, 0x30,
                0x34, 0xA0, 0x0F, 0x30, 0x0D, 0x06, 0x09, 0x60, 0x86, 0x48, 0x01, 0x65, 0x03, 0x04,
                0x02, 0x01, 0x05, 0x00, 0xA1, 0x1C, 0x30, 0x1A, 0x06, 0x09, 0x2A, 0x86, 0x48, 0x86,
                0xF7, 0x0D, 0x01, 0x01, 0x08, 0x30, 0x0D, 0x06, 0x09, 0x60, 0x86, 0x48, 0x01, 0x65,
                0x03, 0x04, 0x02, 0x01, 0x05, 0x00, 0xA2, 0x03, 0x02, 0x01, 0x20,
            ],
            Scheme::PssOnlySha384 => &[
                0x30, 0x41, 0x06, 0x09, 0x2A, 0x86, 0x48, 0x86, 0xF7, 0x0D, 0x01, 0x01, 0x0A, 0x30,
                0x34, 0xA0, 0x0F, 0x30, 0x0D, 0x06, 0x09, 0x60, 0x86, 0x48, 0x01, 0x65, 0x03, 0x04,
                0x02, 0x02, 0x05, 0x00, 0xA1, 0x1C, 0x30, 0x1A, 0x06, 0x09, 0x2A, 0x86, 0x48, 0x86,
                0xF7, 0x0D, 0x01, 0x01, 0x08, 0x30, 0x0D, 0x06, 0x09, 0x60, 0x86, 0x48, 0x01, 0x65,
                0x03, 0x04, 0x02, 0x02, 0x05, 0x00, 0xA2, 0x03, 0x02, 0x01, 0x30,
            ],
            Scheme::PssOnlySha512 => &[
                0x30, 0x41, 0x06, 0x09, 0x2A, 0x86, 0x48, 0x86, 0xF7, 0x0D, 0x01, 0x01, 0x0A, 0x30,
                0x34, 0xA0, 0x0F, 0x30, 0x0D, 0x06, 0x09, 0x60, 0x86, 0x48, 0x01, 0x65, 0x03, 0x04,
                0x02, 0x03, 0x05, 0x00, 0xA1, 0x1C, 0x30, 0x1A, 0x06, 0x09, 0x2A, 0x86, 0x48, 0x86,
                0xF7, 0x0D, 0x01, 0x01, 0x08, 0x30, 0x0D, 0x06, 0x09, 0x60, 0x86, 0x48, 0x01, 0x65,
                0x03, 0x04, 0x02, 0x03, 0x05, 0x00, 0xA2, 0x03, 0x02, 0x01, 0x40,
            ],
        }
    }
}
