use asn1_core::TryClone;

/// What a key is for (RFC 5280, 4.2.1.3), from bit 0 to bit 8.
#[derive(Clone, Copy, Debug, PartialEq, Eq, Hash)]
pub enum KeyUsagePurpose {
    /// Signatures other than those of certificates and revocation lists.
    DigitalSignature,
    /// Signatures that commit the signer to the contents; formerly non-repudiation.
    ContentCommitment,
    /// Enciphering keys.
    KeyEncipherment,
    /// Enciphering data without a key between.
    DataEncipherment,
    /// Agreeing on a key.
    KeyAgreement,
    /// Signatures of certificates.
    KeyCertSign,
    /// Signatures of revocation lists.
    CrlSign,
    /// With key agreement: enciphering alone.
    EncipherOnly,
    /// With key agreement: deciphering alone.
    DecipherOnly,
}

impl TryClone for KeyUsagePurpose {
    ghost copies_are_equal = { λ _ _ same. same };
}
