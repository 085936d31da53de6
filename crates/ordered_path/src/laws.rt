//! Laws: from what an order comes to, to what is valid under its issuer.
ghost use Rattle.ordered_path.specs.Ordered.{OrderedIsSealed, OwnIsIssued};

/// A law: a certificate that is sealed for an order with its issuer's certificate was sealed under that
/// certificate, which is an authority's. So `sealed_is_issued` (sealed_path) and the laws of
/// `issued_path` hold of it.
pub fn ordered_is_sealed()
    ensures { OrderedIsSealed }
{}

/// A law: a certificate that is sealed for an order without an issuer's certificate was issued under its
/// own subject and key. So the laws of `issued_path` hold of it.
pub fn own_is_issued()
    ensures { OwnIsIssued }
{}
