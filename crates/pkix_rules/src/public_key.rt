//! The rules that a public key by itself breaks (RFC 5280, 4.1.2.7).
ghost use Rattle.std.specs.Prelude.{◌≡◌, ◌++◌, IfOk, not};
ghost use Rattle.rule_table.specs.Found.{when};
ghost use Rattle.pkix_rules.specs.Keys.{key_rules};
ghost use Rattle.pkix_rules.specs.PublicKeys.{public_key_rules};

use crate::key::key_rules;
use asn1_core::OutOfMemory;
use der_tree::der;
use pkix_cert::SubjectPublicKeyInfo;
use rule_table::{Rule, note};
use std::alloc::Global;
use strict_der::is_strict;

/// The rules of the key, and whether its octets are strict DER.
fn all_rules_of(
    alloc: Global,
    key: &SubjectPublicKeyInfo,
    strict: bool,
) -> Result<Vec<Rule>, OutOfMemory>
    ensures { IfOk result (λ v. v.items ≡ key_rules key.now ++ when (not strict) Rule.NotStrictDer) }
{
    let mut found = key_rules(alloc, key)?;
    note(&mut found, Rule::NotStrictDer, !strict)?;
    Ok(found)
}

/// The rules that the public key breaks of which `octets` are the DER, in order. Octets that can't be read break none.
#[tactic(auto, unfolding(crate::specs::PublicKeys::public_key_rules))]
pub fn public_key_rules(alloc: Global, octets: &[u8]) -> Result<Vec<Rule>, OutOfMemory>
    ensures { IfOk result (λ v. v.items ≡ public_key_rules octets.now) }
{
    let key: Option<SubjectPublicKeyInfo> = der::value_of(alloc, octets)?;
    let Some(key) = key else {
        return Ok(Vec::new(alloc));
    };
    let found = all_rules_of(alloc, &key, is_strict(octets))?;
    Ok(found)
}
