//! The parameters of an attribute certificate.
ghost use Rattle.std.specs.Prelude.{◌≡◌, IfOk, IfErr};
ghost use Rattle.attr_issue.specs.AttributeCertificateView.{attribute_certificate_view};
ghost use Rattle.rcgen_text.specs.declared.error.Error.TheVariants.{OutOfMemory};
ghost use Rattle.certify_core.specs.AttributeCertificates.{attribute_certificate_of_profile};

use attr_issue::AttributeCertificateParams;
use certify_profile::{AttributeCertificateProfile, IssuerTable};
use profile_params::{attributes_of_profile, name_of_profile};
use rcgen_issue::{Error, SerialNumber};
use std::alloc::Global;
use toml_format::AttributeHolder;

/// The parameters that say what the profile says of its attribute certificate, and who issues it.
pub(crate) fn attribute_params(
    alloc: Global,
    profile: AttributeCertificateProfile,
) -> Result<(AttributeCertificateParams, IssuerTable), Error>
    ensures params { IfOk result (λ x. attribute_certificate_view x.0 ≡ attribute_certificate_of_profile profile) }
    ensures issuer { IfOk result (λ x. x.1 ≡ profile.issuer) }
    ensures memory { IfErr result (λ e. e ≡ OutOfMemory) }
{
    let AttributeHolder { name, serial } = profile.holder;
    let holder_issuer = name_of_profile(alloc, name)?;
    let attributes = attributes_of_profile(alloc, profile.attributes.into_vec())?;
    let params = AttributeCertificateParams {
        holder_issuer,
        holder_serial: SerialNumber::from_vec(serial.into_vec()),
        serial_number: SerialNumber::from_vec(profile.serial.into_vec()),
        not_before: profile.not_before.moment(),
        not_after: profile.not_after.moment(),
        attributes,
        use_authority_key_identifier_extension: profile.authority_key_id,
    };
    Ok((params, profile.issuer))
}
