use asn1_core::TryClone;

/// Whether a subject is an authority (RFC 5280, 4.2.1.9).
#[derive(Clone, Copy, Debug, PartialEq, Eq, Hash)]
pub enum IsCa {
    /// It isn't, and the certificate doesn't say so.
    NoCa,
    /// It isn't, and the certificate says so.
    ExplicitNoCa,
    /// It is.
    Ca(BasicConstraints),
}

impl TryClone for IsCa {
    ghost copies_are_equal = { λ _ _ same. same };
}

/// How many intermediate certificates may follow an authority's in a path (RFC 5280, 4.2.1.9).
#[derive(Clone, Copy, Debug, PartialEq, Eq, Hash)]
pub enum BasicConstraints {
    /// Any number.
    Unconstrained,
    /// At most this number.
    Constrained(u8),
}

impl TryClone for BasicConstraints {
    ghost copies_are_equal = { λ _ _ same. same };
}
