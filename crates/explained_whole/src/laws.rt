//! Laws: what an explanation of a certificate determines.
ghost use Rattle.explained_whole.specs.Told.{FieldsAreTold, LinesAreExplained};

use der_tree::der;
use pkix_cert::Certificate;

/// A law: two certificates with the same lines have the same serial number, version, moments of validity,
/// key bits, unique identifiers, signature bits, and identifiers and criticalities of extensions, in order.
/// Of names, algorithms and the values of extensions it says that their texts are the same, and of a value
/// that is shown in hexadecimal digits that its octets are.
pub fn fields_are_told()
    ensures { FieldsAreTold }
{}

/// A law: these lines are the explanation, before it is folded, between the title and the digest.
pub fn lines_are_explained()
    ensures { LinesAreExplained }
{
    der::value_exactly::<Certificate>();
}
