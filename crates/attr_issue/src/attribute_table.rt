//! The table of attribute certificates can be met.
ghost use Rattle.std.specs.Prelude.{◌≡◌, None};
ghost use Rattle.rcgen_certificate.specs.Issuers.{IssuerView};
ghost use Rattle.attr_issue.specs.AttributeCauses.{first_attribute_cause};
ghost use Rattle.attr_issue.specs.AttributeCertificateView.{attribute_certificate_view};
ghost use Rattle.attr_issue.specs.AttributeTable.{AttributeCertificateExists};

use crate::attribute_certificate::AttributeCertificateParams;
use asn1_core::has_utc_exactly;

/// A law: where there is no cause against it, what the table of attribute certificates asks for
/// exists, whoever issues, unless a part of it or its form would be 2^64 octets or more.
pub fn attribute_certificate_exists(params: &AttributeCertificateParams)
    ensures { (issuer : IssuerView) → first_attribute_cause (attribute_certificate_view params.now) issuer.name ≡ None
        → AttributeCertificateExists (attribute_certificate_view params.now) issuer }
{
    has_utc_exactly(&params.not_before);
    has_utc_exactly(&params.not_after);
}
