use asn1_core::TryClone;

/// Which certificates a list is of alone (RFC 5280, 5.2.5).
#[derive(Clone, Copy, Debug, PartialEq, Eq)]
pub enum CrlScope {
    /// Those of subjects that aren't authorities.
    UserCertsOnly,
    /// Those of authorities.
    CaCertsOnly,
}

impl TryClone for CrlScope {
    ghost copies_are_equal = { λ _ _ same. same };
}
