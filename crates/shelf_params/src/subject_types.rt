//! Names that an order gives, in which each type of attribute occurs once, and extensions, whose contents are strict
//! DER.
ghost use Rattle.std.specs.Prelude.{◌≡◌, length, nat_lt};
ghost use Rattle.rcgen_certificate.specs.ParamsView.{params_view};
ghost use Rattle.shelf_fault.specs.Faults.{Gets, Passes};
ghost use Rattle.shelf_fault.specs.declared.fault.Fault.TheVariants.{Obstacle as OfObstacle};
ghost use Rattle.shelf_fault.specs.declared.fault.Obstacle.TheVariants.{RepeatedType};
ghost use Rattle.shelf_keys.specs.Refusing.{refuse};
ghost use Rattle.std.specs.List.{list_all};
ghost use Rattle.shelf_params.specs.Parameters.{content_params, contents_strict, distinct_name, given_attributes, named_params};
ghost use Rattle.strict_der.specs.Strict.{is_strict};

use profile_params::{name_of_profile, params_of_profile};
use rcgen_issue::{CertificateParams, DistinguishedName};
use shelf_fault::{Fault, Obstacle};
use std::alloc::Global;
use strict_der::is_strict;
use toml_format::{CertificateContent, ExtensionEntry, Name};

/// How many attributes the order gives, one by one, for the name.
fn attributes_given(name: &Name) -> usize
    ensures { result ≡ length (given_attributes name.now) }
{
    match name {
        Name::Subject(attributes) => attributes.as_slice().len(),
        Name::CommonName(_) => 0,
        Name::Default => 0,
    }
}

/// Whether the name has fewer attributes.
#[tactic(auto, using(crate::proofs::RepeatedTypes::length_seen))]
fn is_shorter(name: &DistinguishedName, count: usize) -> bool
    ensures { result ≡ nat_lt (length name.now) count }
{
    name.entries().len() < count
}

/// Refuses a name that has fewer attributes than were given: of those of one type it keeps the last
/// alone.
fn refuse_shorter(name: &DistinguishedName, given: usize) -> Result<(), Fault>
    ensures { Passes (refuse (nat_lt (length name.now) given) (OfObstacle RepeatedType)) result }
{
    if is_shorter(name, given) {
        return Err(Fault::Obstacle(Obstacle::RepeatedType));
    }
    Ok(())
}

/// The name that the order gives, in which each type of attribute occurs once.
pub(crate) fn distinct_name(alloc: Global, name: Name) -> Result<DistinguishedName, Fault>
    ensures { Gets (λ n. n) (distinct_name name) result }
{
    let given = attributes_given(&name);
    let made = name_of_profile(alloc, name)?;
    refuse_shorter(&made, given)?;
    Ok(made)
}

/// The parameters that say what the order says, in whose subject each type of attribute occurs once.
fn named_params(alloc: Global, content: CertificateContent) -> Result<CertificateParams, Fault>
    ensures { Gets params_view (named_params content) result }
{
    let given = attributes_given(&content.name);
    let params = params_of_profile(alloc, content)?;
    refuse_shorter(&params.distinguished_name, given)?;
    Ok(params)
}

fn are_strict(extensions: &[ExtensionEntry]) -> bool
    ensures { result ≡ list_all (λ e. is_strict e.content) extensions.now }
{
    extensions
        .iter()
        .all(|extension| is_strict(extension.content.as_slice()))
}

/// Refuses extensions of which the contents aren't one element of strict DER (RFC 5280, 4.1).
fn contents_strict(extensions: &[ExtensionEntry]) -> Result<(), Fault>
    ensures { Passes (contents_strict extensions.now) result }
{
    if are_strict(extensions) {
        Ok(())
    } else {
        Err(Fault::Obstacle(Obstacle::ExtensionContent))
    }
}

/// The parameters that say what the order says, in whose subject each type of attribute occurs once, and
/// whose extensions have contents of strict DER.
#[tactic(auto, unfolding(crate::specs::Parameters::content_params))]
pub fn content_params(
    alloc: Global,
    content: CertificateContent,
) -> Result<CertificateParams, Fault>
    ensures { Gets params_view (content_params content) result }
{
    contents_strict(content.extensions.as_slice())?;
    named_params(alloc, content)
}
