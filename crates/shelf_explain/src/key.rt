//! Algorithms and public keys.
ghost use Rattle.std.specs.Prelude.{◌≡◌, ◌++◌, OnOk};
ghost use Rattle.std.specs.Option.{option_copied};
ghost use Rattle.shelf_explain.specs.Keys.{algorithm_text, full_algorithm_text, full_parameters, key_lines, key_text, parameters_text, same_algorithm, same_parameters, size_text, unless_null};

use crate::known::push_identifier;
use crate::line::{push_labelled, push_line};
use crate::name::push_hex_value;
use crate::rsa::{push_exponent, rsa_length};
use crate::show::ShowText;
use asn1_core::ObjectIdentifier;
use der_tree::{Any, der};
use pkix_cert::{AlgorithmIdentifier, SubjectPublicKeyInfo};
use std::alloc::{AllocError, Global};

/// Pushes parameters: a name where they are an identifier, as of a curve.
#[tactic(auto, unfolding(crate::specs::Keys::parameters_text, crate::specs::Keys::parameter_text))]
fn push_parameters(alloc: Global, lines: &mut Vec<u8>, octets: &[u8]) -> Result<(), AllocError>
    ensures { OnOk result (lines.new.items ≡ lines.old.items ++ parameters_text octets.now) }
{
    lines.push(b' ')?;
    let Some(id) = der::value_of::<ObjectIdentifier>(alloc, octets)? else {
        return push_hex_value(alloc, lines, octets);
    };
    push_identifier(alloc, lines, id.arcs())?;
    Ok(())
}

/// Pushes parameters that aren't NULL.
#[tactic(auto, unfolding(crate::specs::Keys::unless_null))]
fn push_unless_null(alloc: Global, lines: &mut Vec<u8>, octets: &[u8]) -> Result<(), AllocError>
    ensures { OnOk result (lines.new.items ≡ lines.old.items ++ unless_null octets.now) }
{
    if octets == [5, 0].as_slice() {
        Ok(())
    } else {
        push_parameters(alloc, lines, octets)
    }
}

impl ShowText for AlgorithmIdentifier {
    ghost text = { algorithm_text };

    #[tactic(auto, unfolding(crate::specs::Keys::algorithm_text, crate::specs::Keys::parameters_or_none))]
    fn push_onto(&self, alloc: Global, lines: &mut Vec<u8>) -> Result<(), AllocError> {
        push_identifier(alloc, lines, self.algorithm.arcs())?;
        if let Some(parameters) = &self.parameters {
            push_unless_null(alloc, lines, parameters.as_bytes())?;
        }
        Ok(())
    }
}

/// Pushes the octets of parameters.
#[tactic(auto, unfolding(crate::specs::Keys::full_parameters, crate::specs::Lines::labelled))]
fn push_full_parameters(
    alloc: Global,
    lines: &mut Vec<u8>,
    parameters: Option<&Any>,
) -> Result<(), AllocError>
    ensures { OnOk result (lines.new.items ≡ lines.old.items ++ full_parameters (option_copied parameters.entry)) }
{
    match parameters {
        None => Ok(()),
        Some(parameters) => push_labelled(alloc, lines, b" ", parameters),
    }
}

/// Pushes the identifier, and the octets of the parameters.
#[tactic(auto, unfolding(crate::specs::Keys::full_algorithm_text))]
pub(crate) fn push_full_algorithm(
    alloc: Global,
    lines: &mut Vec<u8>,
    algorithm: &AlgorithmIdentifier,
) -> Result<(), AllocError>
    ensures { OnOk result (lines.new.items ≡ lines.old.items ++ full_algorithm_text algorithm.now) }
{
    push_identifier(alloc, lines, algorithm.algorithm.arcs())?;
    push_full_parameters(alloc, lines, algorithm.parameters.as_ref())?;
    Ok(())
}

#[tactic(auto, unfolding(crate::specs::Keys::same_parameters))]
fn have_same_parameters(one: Option<&Any>, other: Option<&Any>) -> bool
    ensures { result ≡ same_parameters (option_copied one.entry) (option_copied other.entry) }
{
    match (one, other) {
        (None, None) => true,
        (Some(one), Some(other)) => one.as_bytes() == other.as_bytes(),
        (None, Some(_)) => false,
        (Some(_), None) => false,
    }
}

/// Whether the algorithms are one, with the same parameters.
#[tactic(auto, unfolding(crate::specs::Keys::same_algorithm))]
pub(crate) fn is_same_algorithm(one: &AlgorithmIdentifier, other: &AlgorithmIdentifier) -> bool
    ensures { result ≡ same_algorithm one.now other.now }
{
    one.algorithm.arcs() == other.algorithm.arcs()
        && have_same_parameters(one.parameters.as_ref(), other.parameters.as_ref())
}

/// Pushes how many bits a key has, after its algorithm.
#[tactic(auto, unfolding(crate::specs::Keys::size_text))]
fn push_size(alloc: Global, lines: &mut Vec<u8>, bits: Option<u128>) -> Result<(), AllocError>
    ensures { OnOk result (lines.new.items ≡ lines.old.items ++ size_text bits) }
{
    let Some(bits) = bits else {
        return Ok(());
    };
    push_labelled(alloc, lines, b", ", &bits)?;
    lines.extend_from_slice(b" bits")
}

impl ShowText for SubjectPublicKeyInfo {
    ghost text = { key_text };

    #[tactic(auto, unfolding(crate::specs::Keys::key_text))]
    fn push_onto(&self, alloc: Global, lines: &mut Vec<u8>) -> Result<(), AllocError> {
        self.algorithm.push_onto(alloc, lines)?;
        let bits = rsa_length(alloc, self)?;
        push_size(alloc, lines, bits)?;
        push_exponent(alloc, lines, self)?;
        Ok(())
    }
}

/// Pushes the two lines of a key.
#[tactic(auto, unfolding(crate::specs::Keys::key_lines))]
pub(crate) fn push_key_lines(
    alloc: Global,
    lines: &mut Vec<u8>,
    key: &SubjectPublicKeyInfo,
) -> Result<(), AllocError>
    ensures { OnOk result (lines.new.items ≡ lines.old.items ++ key_lines key.now) }
{
    push_line(alloc, lines, b"  ", b"key", key)?;
    push_line(alloc, lines, b"  ", b"key octets", &key.subject_public_key)
}
