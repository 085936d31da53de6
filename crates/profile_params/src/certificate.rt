//! The parameters of a certificate.
ghost use Rattle.std.specs.Prelude.{◌≡◌, map, IfOk, IfErr};
ghost use Rattle.std.specs.Option.{option_map, unwrap_or};
ghost use Rattle.asn1_core.specs.Moment.{instant};
ghost use Rattle.toml_format.specs.UtcInstant.{instant_of};
ghost use Rattle.rcgen_certificate.specs.CustomExtensions.{custom_of};
ghost use Rattle.rcgen_certificate.specs.DistributionPoints.{uris_of};
ghost use Rattle.rcgen_certificate.specs.ExtendedKeyUsages.{purpose_of};
ghost use Rattle.rcgen_certificate.specs.Params.{default_start, default_end};
ghost use Rattle.rcgen_certificate.specs.ParamsView.{params_view};
ghost use Rattle.rcgen_text.specs.declared.error.Error.TheVariants.{OutOfMemory};
ghost use Rattle.profile_params.specs.Certificates.{params_of_profile, start_of};
ghost use Rattle.profile_params.specs.Extensions.{extension_of_profile};
ghost use Rattle.profile_params.specs.Keys.{purpose_of_profile};
ghost use Rattle.profile_params.specs.Names.{name_of_profile};

use crate::constraints::name_constraints;
use crate::extensions::{extensions, points};
use crate::keys::{extended_key_usages, method_of_profile};
use crate::names::{alternative_names, name_of_profile};
use asn1_core::OffsetDateTime;
use rcgen_issue::{
    CertificateParams, CrlDistributionPoint, CustomExtension, Error, ExtendedKeyUsagePurpose,
    SerialNumber,
};
use std::alloc::Global;
use toml_format::{
    CertificateContent, ExtensionEntry, HexBytes, List, Name, Purpose, Text, Timestamp,
};

/// The time, or the default.
fn moment_or(time: Option<Timestamp>, default: OffsetDateTime) -> OffsetDateTime
    ensures { instant result ≡ unwrap_or (option_map instant_of time) (instant default) }
{
    match time {
        Some(time) => time.moment(),
        None => default,
    }
}

/// The serial number, where one is given.
fn serial_number(serial: Option<HexBytes>) -> Option<SerialNumber>
    ensures { result ≡ serial }
{
    match serial {
        Some(serial) => Some(SerialNumber::from_vec(serial.into_vec())),
        None => None,
    }
}

/// The default parameters with the name, the times and the serial number of a profile.
fn subject_params(
    alloc: Global,
    name: Name,
    times: (Option<Timestamp>, Option<Timestamp>),
    serial: Option<HexBytes>,
) -> Result<CertificateParams, Error>
    ensures name { IfOk result (λ params. params.distinguished_name ≡ name_of_profile name) }
    ensures not_before { IfOk result (λ params. instant params.not_before ≡ unwrap_or (option_map instant_of times.0) (instant_of (start_of default_start))) }
    ensures not_after { IfOk result (λ params. instant params.not_after ≡ unwrap_or (option_map instant_of times.1) (instant_of (start_of default_end))) }
    ensures serial { IfOk result (λ params. params.serial_number ≡ serial) }
    ensures memory { IfErr result (λ e. e ≡ OutOfMemory) }
{
    let (not_before, not_after) = times;
    let distinguished_name = name_of_profile(alloc, name)?;
    let default = CertificateParams::default(alloc)?;
    Ok(CertificateParams {
        not_before: moment_or(not_before, default.not_before),
        not_after: moment_or(not_after, default.not_after),
        serial_number: serial_number(serial),
        distinguished_name,
        ..default
    })
}

/// The lists of a profile, as parameters have them.
#[derive(Drop)]
struct Lists {
    extended_key_usages: Vec<ExtendedKeyUsagePurpose>,
    crl_distribution_points: Vec<CrlDistributionPoint>,
    custom_extensions: Vec<CustomExtension>,
}

fn lists_of(
    alloc: Global,
    purposes: List<Purpose>,
    uris: List<List<Text>>,
    entries: List<ExtensionEntry>,
) -> Result<Lists, Error>
    ensures purposes { IfOk result (λ lists. map purpose_of lists.extended_key_usages.items ≡ map purpose_of_profile purposes) }
    ensures points { IfOk result (λ lists. map uris_of lists.crl_distribution_points.items ≡ uris) }
    ensures given { IfOk result (λ lists. map custom_of lists.custom_extensions.items ≡ map extension_of_profile entries) }
    ensures memory { IfErr result (λ e. e ≡ OutOfMemory) }
{
    let extended_key_usages = extended_key_usages(alloc, purposes.into_vec())?;
    let crl_distribution_points = points(alloc, uris.into_vec())?;
    let custom_extensions = extensions(alloc, entries.into_vec())?;
    Ok(Lists {
        extended_key_usages,
        crl_distribution_points,
        custom_extensions,
    })
}

/// The parameters of a certificate that says what the profile says, with the defaults of
/// `CertificateParams::default` where it says nothing. `OutOfMemory` is the only error.
pub fn params_of_profile(
    alloc: Global,
    content: CertificateContent,
) -> Result<CertificateParams, Error>
    ensures params { IfOk result (λ params. params_view params ≡ params_of_profile content) }
    ensures memory { IfErr result (λ e. e ≡ OutOfMemory) }
{
    let times = (content.not_before, content.not_after);
    let method = method_of_profile(content.key_id);
    let lists = lists_of(
        alloc,
        content.extended_key_usages,
        content.crl_points,
        content.extensions,
    )?;
    let name_constraints = name_constraints(alloc, content.constraints)?;
    let subject_alt_names = alternative_names(alloc, content.alt_names.into_vec())?;
    let subject = subject_params(alloc, content.name, times, content.serial)?;
    Ok(CertificateParams {
        subject_alt_names,
        is_ca: content.ca,
        key_usages: content.key_usages.into_vec(),
        extended_key_usages: lists.extended_key_usages,
        name_constraints,
        crl_distribution_points: lists.crl_distribution_points,
        custom_extensions: lists.custom_extensions,
        use_authority_key_identifier_extension: content.authority_key_id,
        key_identifier_method: method,
        ..subject
    })
}
