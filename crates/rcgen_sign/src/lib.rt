//! Signature algorithms, public keys and their DER, keys that sign and who checks signatures, each by
//! its law, and key identifiers.
#![tactic(auto)]

mod key_id;
mod key_info;
mod key_pair;
mod public_key;
mod sign_algo;
mod verifier;

pub use key_id::{KeyIdMethod, methods_are_same};
pub use key_info::{KeyAlgorithm, KeyInfo, identifier, memory_only, spki_in_front, spki_octets};
pub use key_pair::{DigestKey, FixedKey, PublicKeyData, RefusingKey, SigningKey};
pub use public_key::{PublicKey, SubjectPublicKeyInfo};
pub use sign_algo::{
    PKCS_ECDSA_P256_SHA256, PKCS_ECDSA_P384_SHA384, PKCS_ECDSA_P521_SHA256, PKCS_ECDSA_P521_SHA384,
    PKCS_ECDSA_P521_SHA512, PKCS_ED25519, PKCS_ML_DSA_44, PKCS_ML_DSA_65, PKCS_ML_DSA_87,
    PKCS_PSS_ONLY_SHA256, PKCS_PSS_ONLY_SHA384, PKCS_PSS_ONLY_SHA512, PKCS_PSS_SHA256,
    PKCS_PSS_SHA384, PKCS_PSS_SHA512, PKCS_RSA_PSS_SHA256, PKCS_RSA_PSS_SHA384,
    PKCS_RSA_PSS_SHA512, PKCS_RSA_SHA256, PKCS_RSA_SHA384, PKCS_RSA_SHA512, SignatureAlgorithm,
    algorithms, algorithms_are_told_apart, key_parameters_are_forms,
};
pub use verifier::{DigestVerifier, Verifier, signed_is_accepted};
