//! The lines of the algorithms.
use crate::lines::push_line;
use rcgen_issue::{
    PKCS_ECDSA_P256_SHA256, PKCS_ECDSA_P384_SHA384, PKCS_ECDSA_P521_SHA256, PKCS_ECDSA_P521_SHA384,
    PKCS_ECDSA_P521_SHA512, PKCS_ED25519, PKCS_ML_DSA_44, PKCS_ML_DSA_65, PKCS_ML_DSA_87,
    PKCS_RSA_SHA256, PKCS_RSA_SHA384, PKCS_RSA_SHA512, SignatureAlgorithm,
};
use rcgen_sign::{
    PKCS_PSS_ONLY_SHA256, PKCS_PSS_ONLY_SHA384, PKCS_PSS_ONLY_SHA512, PKCS_PSS_SHA256,
    PKCS_PSS_SHA384, PKCS_PSS_SHA512, PKCS_RSA_PSS_SHA256, PKCS_RSA_PSS_SHA384,
    PKCS_RSA_PSS_SHA512,
};
use std::alloc::{AllocError, Global};

/// Each algorithm.
const ALGORITHMS: [SignatureAlgorithm; 21] = [
    PKCS_RSA_SHA256,
    PKCS_RSA_SHA384,
    PKCS_RSA_SHA512,
    PKCS_ECDSA_P256_SHA256,
    PKCS_ECDSA_P384_SHA384,
    PKCS_ECDSA_P521_SHA256,
    PKCS_ECDSA_P521_SHA384,
    PKCS_ECDSA_P521_SHA512,
    PKCS_ED25519,
    PKCS_ML_DSA_44,
    PKCS_ML_DSA_65,
    PKCS_ML_DSA_87,
    PKCS_RSA_PSS_SHA256,
    PKCS_RSA_PSS_SHA384,
    PKCS_RSA_PSS_SHA512,
    PKCS_PSS_SHA256,
    PKCS_PSS_SHA384,
    PKCS_PSS_SHA512,
    PKCS_PSS_ONLY_SHA256,
    PKCS_PSS_ONLY_SHA384,
    PKCS_PSS_ONLY_SHA512,
];

/// An element in hex, or `-`.
fn element_text(alloc: Global, element: Option<&[u8]>) -> Result<String, AllocError> {
    match element {
        Some(element) => hex::encode(alloc, element),
        None => String::from_str(alloc, "-"),
    }
}

/// A line for each algorithm: its name, the arcs of its signatures, whether NULL comes after them, what does, and the
/// identifier of its keys, the last two in hex.
pub fn algorithms_text(alloc: Global) -> Result<String, AllocError> {
    let mut text = String::new(alloc);
    for algorithm in ALGORITHMS {
        let keys = hex::encode(alloc, algorithm.key_element())?;
        let parameters = element_text(alloc, algorithm.signature_parameters())?;
        let line = format!(in alloc;
            "{algorithm:?} {:?} {} {parameters} {keys}",
            algorithm.signature_arcs(),
            algorithm.signature_null(),
        )?;
        push_line(&mut text, line.as_str())?;
    }
    Ok(text)
}
