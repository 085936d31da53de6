use asn1_core::TryClone;

/// Why a certificate was revoked, each reason with its number (RFC 5280, 5.3.1). There is no 7.
#[derive(Clone, Copy, Debug, PartialEq, Eq)]
pub enum RevocationReason {
    /// It isn't written.
    Unspecified = 0,
    KeyCompromise = 1,
    CaCompromise = 2,
    AffiliationChanged = 3,
    Superseded = 4,
    CessationOfOperation = 5,
    CertificateHold = 6,
    RemoveFromCrl = 8,
    PrivilegeWithdrawn = 9,
    AaCompromise = 10,
}

impl TryClone for RevocationReason {
    ghost copies_are_equal = { λ _ _ same. same };
}

// The number has no other witness: nothing that is issued here removes an entry.
const _: () = prove!(RevocationReason::RemoveFromCrl as u8 == 8);
