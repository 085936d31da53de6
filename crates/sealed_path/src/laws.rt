//! A law: what is sealed under an issuer's certificate was issued under it.
ghost use Rattle.sealed_path.specs.Sealed.{SealedIsIssued};

use pkix_cert::parts_of_each_view;
use rcgen_sign::spki_octets;

/// A law: what is issued by the key of an issuer's certificate with a signature that is taken, of an
/// algorithm that is verified, was issued under the issuer in view of the verifier, and the issuer is the
/// subject of the certificate with its key. So the laws of `issued_path` hold of it.
pub fn sealed_is_issued()
    ensures { SealedIsIssued }
{
    spki_octets();
    parts_of_each_view();
}
