//! What is signed, the algorithm and the signature (RFC 5280, 4.1.1).
ghost use Rattle.std.specs.Prelude.{◌≡◌, None, IfOk, IfErr, true};
ghost use Rattle.asn1_core.specs.Bits.{bits};
ghost use Rattle.der_tree.specs.AnyElement.{is_one};
ghost use Rattle.der_tree.specs.Answers.{Encodes};
ghost use Rattle.der_tree.specs.Form.{IsDerOf};
ghost use Rattle.der_tree.specs.Grammar.{any};
ghost use Rattle.der_tree.specs.HasTree.{HasTree};
ghost use Rattle.der_tree.specs.PrimitiveTypes.{bit_string};
ghost use Rattle.pkix_cert.specs.Algorithms.{algorithm_identifier};
ghost use Rattle.rcgen_text.specs.Causes.{Explains, origin_of};
ghost use Rattle.rcgen_text.specs.declared.error.Error.TheVariants.{OutOfMemory};
ghost use Rattle.rcgen_certificate.specs.KeyValues.{signature_identifier};
ghost use Rattle.rcgen_certificate.specs.Signed.{signed, signed_value, IsAssembled, IsSigned, IsSignedBy, MayRefuse};
ghost use Rattle.der_tree.specs.declared.error.EncodeError.TheVariants.{OutOfMemory as EncodeOutOfMemory};

use crate::value::{all_bits, signature_identifier};
use asn1_core::{BitString, Tag};
use der_tree::{Bytes, DerType, EncodeError, Tree, Trees, der, put, tree_octets};
use pkix_cert::AlgorithmIdentifier;
use rcgen_sign::{SignatureAlgorithm, SigningKey, memory_only};
use rcgen_text::Error;
use std::alloc::Global;

/// A tree of three children: the octets that were signed, unchanged, the algorithm and the
/// signature.
#[tactic(auto, unfolding(crate::specs::Signed::signed_fields))]
fn signed_tree(
    alloc: Global,
    message: Vec<u8>,
    algorithm: &AlgorithmIdentifier,
    signature: &BitString,
) -> Result<Tree, EncodeError>
    requires { is_one message.items ≡ true }
    ensures { Encodes result ((signed any).tree_of (signed_value message.items algorithm.now signature.now)) }
{
    let mut children = Trees::new(alloc);
    let bytes = Bytes::from_vec(message);
    children.push(Tree::Raw { bytes })?;
    put(alloc, &mut children, algorithm)?;
    put(alloc, &mut children, signature)?;
    Ok(Tree::Node {
        tag: Tag::SEQUENCE,
        children,
    })
}

/// The octets of that tree. Where the algorithm and the signature have trees, only memory runs out.
#[tactic(auto, using(crate::proofs::SignedOctets::only_memory))]
fn signed_octets(
    alloc: Global,
    message: Vec<u8>,
    algorithm: &AlgorithmIdentifier,
    signature: &BitString,
) -> Result<Vec<u8>, EncodeError>
    requires { is_one message.items ≡ true }
    ensures form { IfOk result (λ der. IsDerOf (signed any) (signed_value message.items algorithm.now signature.now) der.items) }
    ensures memory { HasTree algorithm_identifier algorithm.now → HasTree bit_string signature.now → IfErr result (λ e. e ≡ EncodeOutOfMemory) }
{
    let tree = signed_tree(alloc, message, algorithm, signature)?;
    let octets = tree_octets(alloc, &tree)?;
    Ok(octets)
}

/// What is issued over the octets that were signed, one element, which stay as they are: these, the
/// signature's algorithm and the signature (RFC 5280, 4.1.1). Whether the signature is valid isn't looked
/// at.
#[tactic(auto, using(rcgen_sign::proofs::AlgorithmLemmas::no_unused))]
pub fn assemble(
    alloc: Global,
    message: Vec<u8>,
    algorithm: SignatureAlgorithm,
    signature: Vec<u8>,
) -> Result<Vec<u8>, Error>
    requires { is_one message.items ≡ true }
    ensures assembled { IfOk result (λ der. IsAssembled message.items algorithm signature.items der.items) }
    ensures memory { IfErr result (λ e. e ≡ OutOfMemory) }
{
    let signature = all_bits(signature);
    let algorithm = signature_identifier(alloc, algorithm)?;
    let der = memory_only(signed_octets(alloc, message, &algorithm, &signature))?;
    Ok(der)
}

/// What is issued for a value: its octets, and the algorithm and the signature in them.
#[derive(Drop)]
pub struct Signed {
    pub der: Vec<u8>,
    pub algorithm: AlgorithmIdentifier,
    pub signature: BitString,
}

/// Signs the value's form. The octets are the form of the value, the key's algorithm and the
/// signature.
#[tactic(auto, using(rcgen_sign::proofs::AlgorithmLemmas::no_unused))]
pub fn sign_value<T: DerType, S: SigningKey>(
    alloc: Global,
    signing_key: &S,
    value: &T,
) -> Result<Signed, Error>
    requires { HasTree T.codec value.now }
    ensures algorithm { IfOk result (λ s. s.algorithm ≡ signature_identifier (S.key signing_key.now).algorithm) }
    ensures signature { IfOk result (λ s. s.signature ≡ bits 0 s.signature.bytes) }
    ensures signed { IfOk result (λ s. IsSignedBy T.codec value.now (S.key signing_key.now).algorithm s.signature.bytes (S.fits signing_key.now) s.der.items) }
    ensures why { IfErr result (λ e. Explains None (MayRefuse T.codec value.now (S.may_refuse signing_key.now)) (origin_of e)) }
{
    let message = memory_only(der::encode(alloc, value))?;
    let signature = signing_key.sign(alloc, message.as_slice())?;
    let signature = all_bits(signature);
    let algorithm = signature_identifier(alloc, signing_key.algorithm())?;
    let der = memory_only(signed_octets(alloc, message, &algorithm, &signature))?;
    Ok(Signed {
        der,
        algorithm,
        signature,
    })
}

/// Signs the value's form, and answers the form of the value, the key's algorithm and the signature.
pub fn sign_der<T: DerType, S: SigningKey>(
    alloc: Global,
    signing_key: &S,
    value: T,
) -> Result<Vec<u8>, Error>
    requires { HasTree T.codec value }
    ensures signed { IfOk result (λ der. IsSigned T.codec value (S.key signing_key.now).algorithm (S.fits signing_key.now) der.items) }
    ensures why { IfErr result (λ e. Explains None (MayRefuse T.codec value (S.may_refuse signing_key.now)) (origin_of e)) }
{
    let signed = sign_value(alloc, signing_key, &value)?;
    Ok(signed.der)
}
