//! The identifiers of algorithms, curves, attributes and extensions, by the names of their constants (ANSI X9.62; RFC 3279; RFC 5755;
//! RFC 7030).
use asn1_core::Oid;
use pkix_alg::{algorithms, est};
use pkix_attr::attribute_certificate;
use std::alloc::{AllocError, Global};

// Fields, keys and signatures of ANSI X9.62.
fn x9_62(name: &str) -> &'static [u32] {
    if name == "ID_FIELD_TYPE" {
        return algorithms::ID_FIELD_TYPE;
    }
    if name == "PRIME_FIELD" {
        return algorithms::PRIME_FIELD;
    }
    if name == "CHARACTERISTIC_TWO_FIELD" {
        return algorithms::CHARACTERISTIC_TWO_FIELD;
    }
    if name == "ID_CHARACTERISTIC_TWO_BASIS" {
        return algorithms::ID_CHARACTERISTIC_TWO_BASIS;
    }
    if name == "GN_BASIS" {
        return algorithms::GN_BASIS;
    }
    if name == "ID_PUBLIC_KEY_TYPE" {
        return algorithms::ID_PUBLIC_KEY_TYPE;
    }
    if name == "ID_EC_PUBLIC_KEY" {
        return algorithms::ID_EC_PUBLIC_KEY;
    }
    if name == "ELLIPTIC_CURVE" {
        return algorithms::ELLIPTIC_CURVE;
    }
    if name == "C_TWO_CURVE" {
        return algorithms::C_TWO_CURVE;
    }
    if name == "PRIME" {
        return algorithms::PRIME;
    }
    if name == "ID_EC_SIG_TYPE" {
        return algorithms::ID_EC_SIG_TYPE;
    }
    if name == "ECDSA_WITH_SHA1" {
        return algorithms::ECDSA_WITH_SHA1;
    }
    binary_curves(name)
}

// Curves of ANSI X9.62 over fields of 2^m elements.
fn binary_curves(name: &str) -> &'static [u32] {
    if name == "C2PNB163V1" {
        return algorithms::C2PNB163V1;
    }
    if name == "C2PNB163V2" {
        return algorithms::C2PNB163V2;
    }
    if name == "C2PNB163V3" {
        return algorithms::C2PNB163V3;
    }
    if name == "C2PNB176W1" {
        return algorithms::C2PNB176W1;
    }
    if name == "C2TNB191V1" {
        return algorithms::C2TNB191V1;
    }
    if name == "C2TNB191V2" {
        return algorithms::C2TNB191V2;
    }
    if name == "C2TNB191V3" {
        return algorithms::C2TNB191V3;
    }
    if name == "C2ONB191V4" {
        return algorithms::C2ONB191V4;
    }
    if name == "C2ONB191V5" {
        return algorithms::C2ONB191V5;
    }
    if name == "C2PNB208W1" {
        return algorithms::C2PNB208W1;
    }
    further_binary_curves(name)
}

// The further ones.
fn further_binary_curves(name: &str) -> &'static [u32] {
    if name == "C2TNB239V1" {
        return algorithms::C2TNB239V1;
    }
    if name == "C2TNB239V2" {
        return algorithms::C2TNB239V2;
    }
    if name == "C2TNB239V3" {
        return algorithms::C2TNB239V3;
    }
    if name == "C2ONB239V4" {
        return algorithms::C2ONB239V4;
    }
    if name == "C2ONB239V5" {
        return algorithms::C2ONB239V5;
    }
    if name == "C2PNB272W1" {
        return algorithms::C2PNB272W1;
    }
    if name == "C2PNB304W1" {
        return algorithms::C2PNB304W1;
    }
    if name == "C2TNB359V1" {
        return algorithms::C2TNB359V1;
    }
    if name == "C2PNB368W1" {
        return algorithms::C2PNB368W1;
    }
    if name == "C2TNB431R1" {
        return algorithms::C2TNB431R1;
    }
    prime_curves(name)
}

// Curves of ANSI X9.62 over fields of a prime number of elements.
fn prime_curves(name: &str) -> &'static [u32] {
    if name == "PRIME_192V1" {
        return algorithms::PRIME_192V1;
    }
    if name == "PRIME_192V2" {
        return algorithms::PRIME_192V2;
    }
    if name == "PRIME_192V3" {
        return algorithms::PRIME_192V3;
    }
    if name == "PRIME_239V1" {
        return algorithms::PRIME_239V1;
    }
    if name == "PRIME_239V2" {
        return algorithms::PRIME_239V2;
    }
    if name == "PRIME_239V3" {
        return algorithms::PRIME_239V3;
    }
    if name == "PRIME_256V1" {
        return algorithms::PRIME_256V1;
    }
    rfc_3279(name)
}

// Digests, keys and signatures (RFC 3279, 2).
fn rfc_3279(name: &str) -> &'static [u32] {
    if name == "ID_SHA1" {
        return algorithms::ID_SHA1;
    }
    if name == "DH_PUBLIC_NUMBER" {
        return algorithms::DH_PUBLIC_NUMBER;
    }
    if name == "ID_DSA" {
        return algorithms::ID_DSA;
    }
    if name == "ID_DSA_WITH_SHA1" {
        return algorithms::ID_DSA_WITH_SHA1;
    }
    if name == "ID_KEY_EXCHANGE_ALGORITHM" {
        return algorithms::ID_KEY_EXCHANGE_ALGORITHM;
    }
    if name == "MD2" {
        return algorithms::MD2;
    }
    if name == "MD5" {
        return algorithms::MD5;
    }
    if name == "PKCS1" {
        return algorithms::PKCS1;
    }
    if name == "RSA_ENCRYPTION" {
        return algorithms::RSA_ENCRYPTION;
    }
    if name == "MD2_WITH_RSA_ENCRYPTION" {
        return algorithms::MD2_WITH_RSA_ENCRYPTION;
    }
    if name == "MD5_WITH_RSA_ENCRYPTION" {
        return algorithms::MD5_WITH_RSA_ENCRYPTION;
    }
    if name == "SHA1_WITH_RSA_ENCRYPTION" {
        return algorithms::SHA1_WITH_RSA_ENCRYPTION;
    }
    further(name)
}

// What is asked for in enrolment (RFC 7030, 4.4.1.2), and extensions (RFC 5755, 4.3 and 7).
fn further(name: &str) -> &'static [u32] {
    if name == "ASYMMETRIC_DECRYPT_KEY_OID" {
        return est::ASYMMETRIC_DECRYPT_KEY_OID;
    }
    if name == "AUDIT_IDENTITY" {
        return attribute_certificate::AUDIT_IDENTITY;
    }
    if name == "AA_CONTROLS" {
        return attribute_certificate::AA_CONTROLS;
    }
    if name == "AC_PROXYING" {
        return attribute_certificate::AC_PROXYING;
    }
    if name == "TARGET_INFORMATION" {
        return attribute_certificate::TARGET_INFORMATION;
    }
    attributes(name)
}

// Attributes (RFC 5755, 4.4 and 7).
fn attributes(name: &str) -> &'static [u32] {
    if name == "AUTHENTICATION_INFO" {
        return attribute_certificate::AUTHENTICATION_INFO;
    }
    if name == "ACCESS_IDENTITY" {
        return attribute_certificate::ACCESS_IDENTITY;
    }
    if name == "CHARGING_IDENTITY" {
        return attribute_certificate::CHARGING_IDENTITY;
    }
    if name == "GROUP" {
        return attribute_certificate::GROUP;
    }
    if name == "ENC_ATTRIBUTES" {
        return attribute_certificate::ENC_ATTRIBUTES;
    }
    if name == "ROLE" {
        return attribute_certificate::ROLE;
    }
    if name == "CLEARANCE" {
        return attribute_certificate::CLEARANCE;
    }
    &[]
}

/// Whether the constant of this name has the arcs of the text.
pub fn answer_to(alloc: Global, name: &str, text: &str) -> Result<String, AllocError> {
    match Oid::parse(alloc, text) {
        Ok(id) if id.arcs() == x9_62(name) => " registered".to_string(alloc),
        _ => " another".to_string(alloc),
    }
}
