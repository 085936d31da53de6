//! The tables of extensions, in code as in the specification: a line a row.
ghost use Rattle.std.specs.Prelude.{◌≡◌, true, IfOk, IfErr};
ghost use Rattle.std.specs.Option.{IfSome};
ghost use Rattle.der_tree.specs.HasTree.{HasTree};
ghost use Rattle.pkix_cert.specs.Extensions.{extensions};
ghost use Rattle.rcgen_text.specs.declared.error.Error.TheVariants.{OutOfMemory};
ghost use Rattle.rcgen_certificate.specs.ExtensionRows.{IsField};
ghost use Rattle.rcgen_certificate.specs.Issue.{HasNoCause, all_oids_valid};
ghost use Rattle.rcgen_certificate.specs.IssuedExtensions.{extension_rows, has_no_place};
ghost use Rattle.rcgen_certificate.specs.Issuers.{view_of};
ghost use Rattle.rcgen_certificate.specs.ParamsView.{params_view};
ghost use Rattle.rcgen_certificate.specs.Requests.{request_rows};

use crate::basic_constraints::push_basic_constraints;
use crate::custom_extension::push_custom;
use crate::distribution_point::push_crl_distribution_points;
use crate::extended_key_usage::push_ext_key_usage;
use crate::extension::extensions_field;
use crate::issuer::Issuer;
use crate::key_identifier::{push_authority_key, push_subject_key};
use crate::key_usage::push_key_usage;
use crate::name_constraints::push_name_constraints;
use crate::params::CertificateParams;
use crate::subject_alt_name::push_subject_alt_name;
use der_tree::SequenceOf;
use pkix_cert::Extensions;
use rcgen_sign::{PublicKeyData, SigningKey};
use rcgen_text::Error;
use std::alloc::Global;

/// The extensions for the parameters and the subject's key, under the issuer, in the order of the
/// table; `None` where there is no row.
pub(crate) fn extensions<K: PublicKeyData, S: SigningKey>(
    alloc: Global,
    params: &CertificateParams,
    public_key: &K,
    issuer: &Issuer<'_, S>,
) -> Result<Option<Extensions>, Error>
    requires { HasNoCause (params_view params.now) (view_of S.key issuer.now).name }
    ensures rows { IfOk result (IsField (extension_rows (params_view params.now) (K.key public_key.now) (view_of S.key issuer.now))) }
    ensures formed { IfOk result (λ x. IfSome x (HasTree extensions)) }
    ensures memory { IfErr result (λ e. e ≡ OutOfMemory) }
{
    let mut list = SequenceOf::new(alloc);
    push_authority_key(
        alloc,
        &mut list,
        params.use_authority_key_identifier_extension,
        issuer,
    )?;
    push_subject_alt_name(
        alloc,
        &mut list,
        &params.distinguished_name,
        &params.subject_alt_names,
    )?;
    push_key_usage(alloc, &mut list, &params.key_usages)?;
    push_ext_key_usage(alloc, &mut list, &params.extended_key_usages)?;
    push_name_constraints(alloc, &mut list, params.name_constraints.as_ref())?;
    push_crl_distribution_points(alloc, &mut list, &params.crl_distribution_points)?;
    push_subject_key(
        alloc,
        &mut list,
        params.is_ca,
        &params.key_identifier_method,
        public_key,
    )?;
    push_basic_constraints(alloc, &mut list, params.is_ca)?;
    push_custom(alloc, &mut list, &params.custom_extensions)?;
    Ok(extensions_field(list))
}

/// The extensions that a request asks for, in the order of its table; `None` where there is no
/// row.
#[tactic(auto, using(crate::proofs::Rows::named))]
pub(crate) fn requested_extensions(
    alloc: Global,
    params: &CertificateParams,
) -> Result<Option<Extensions>, Error>
    requires { all_oids_valid (params_view params.now) ≡ true }
    ensures rows { IfOk result (IsField (request_rows (params_view params.now))) }
    ensures formed { IfOk result (λ x. IfSome x (HasTree extensions)) }
    ensures memory { IfErr result (λ e. e ≡ OutOfMemory) }
{
    let mut list = SequenceOf::new(alloc);
    push_key_usage(alloc, &mut list, &params.key_usages)?;
    push_subject_alt_name(
        alloc,
        &mut list,
        &params.distinguished_name,
        &params.subject_alt_names,
    )?;
    push_ext_key_usage(alloc, &mut list, &params.extended_key_usages)?;
    push_basic_constraints(alloc, &mut list, params.is_ca)?;
    push_custom(alloc, &mut list, &params.custom_extensions)?;
    Ok(extensions_field(list))
}

/// Whether something is asked for that no request says.
#[tactic(auto, using(crate::proofs::NoCause::places))]
pub(crate) fn has_no_place(params: &CertificateParams) -> bool
    ensures { result ≡ has_no_place (params_view params.now) }
{
    params.serial_number.is_some()
        || params.name_constraints.is_some()
        || !params.crl_distribution_points.is_empty()
        || params.use_authority_key_identifier_extension
}
