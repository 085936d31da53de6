ghost use Rattle.std.specs.Prelude.{◌≡◌, None, refl};
ghost use Rattle.std.proofs.Common.{rules};
ghost use Rattle.pkix_alg.specs.Algorithms.{dss_params, dss_params_fields, dss_sig_value, dss_sig_value_fields, rsa_public_key, rsa_public_key_fields, domain_parameters, domain_parameters_fields, validation_params, validation_params_fields, field_id, field_id_fields, ecdsa_sig_value, ecdsa_sig_value_fields, characteristic_two, characteristic_two_fields, pentanomial, pentanomial_fields, ecpk_parameters, ec_parameters, ec_parameters_fields, curve, curve_fields};

pub use crate::identifiers::{
    C_TWO_CURVE, C2ONB191V4, C2ONB191V5, C2ONB239V4, C2ONB239V5, C2PNB163V1, C2PNB163V2,
    C2PNB163V3, C2PNB176W1, C2PNB208W1, C2PNB272W1, C2PNB304W1, C2PNB368W1, C2TNB191V1, C2TNB191V2,
    C2TNB191V3, C2TNB239V1, C2TNB239V2, C2TNB239V3, C2TNB359V1, C2TNB431R1,
    CHARACTERISTIC_TWO_FIELD, DH_PUBLIC_NUMBER, ECDSA_WITH_SHA1, ELLIPTIC_CURVE, GN_BASIS,
    ID_CHARACTERISTIC_TWO_BASIS, ID_DSA, ID_DSA_WITH_SHA1, ID_EC_PUBLIC_KEY, ID_EC_SIG_TYPE,
    ID_FIELD_TYPE, ID_KEY_EXCHANGE_ALGORITHM, ID_PUBLIC_KEY_TYPE, ID_SHA1, MD2,
    MD2_WITH_RSA_ENCRYPTION, MD5, MD5_WITH_RSA_ENCRYPTION, PKCS1, PRIME, PRIME_192V1, PRIME_192V2,
    PRIME_192V3, PRIME_239V1, PRIME_239V2, PRIME_239V3, PRIME_256V1, PRIME_FIELD, RSA_ENCRYPTION,
    SHA1_WITH_RSA_ENCRYPTION,
};
use asn1_core::{BitString, Integer, ObjectIdentifier, OctetString, Tag, TryClone};
use der_tree::{
    Any, DecodeError, DerType, EncodeError, Fields, Form, Sequence, Tree, Trees, Window, optional,
    put, put_optional, required,
};
use std::alloc::Global;

/// A DSA public key, the number y (RFC 3279, 2.3.2).
pub type DsaPublicKey = Integer;

/// A Diffie-Hellman public key, the number y (RFC 3279, 2.3.3).
pub type DhPublicKey = Integer;

/// The identifier of the parameters of a KEA key (RFC 3279, 2.3.4).
pub type KeaParamsId = OctetString;

/// The prime of a field, as the parameters of a prime field (RFC 3279, 2.3.5).
pub type PrimeP = Integer;

/// The middle exponent of a trinomial x^m + x^k + 1, as a basis of a field (RFC 3279, 2.3.5).
pub type Trinomial = Integer;

/// An element of a field, as its octets (RFC 3279, 2.3.5).
pub type FieldElement = OctetString;

/// A point of a curve, as its octets (RFC 3279, 2.3.5).
pub type EcPoint = OctetString;

/// The version of the parameters of a curve (RFC 3279, 2.3.5).
pub type EcpVer = Integer;

/// The parameters of a DSA key (RFC 3279, 2.3.2).
#[derive(Clone, Debug, Drop, PartialEq, Eq, Hash)]
pub struct DssParams {
    /// The prime modulus.
    pub p: Integer,
    /// The prime order of the subgroup, a divisor of `p` - 1.
    pub q: Integer,
    /// The generator of the subgroup.
    pub g: Integer,
}

impl TryClone for DssParams {
    ghost copies_are_equal = { Prim.search rules };
}

impl Form for DssParams {
    ghost codec = { dss_params };
}

#[tactic(auto, unfolding(crate::specs::Algorithms::dss_params_fields))]
impl Sequence for DssParams {
    ghost layout = { dss_params_fields };

    ghost is_sequence = { refl };

    fn put_fields(&self, alloc: Global, fields: &mut Trees) -> Result<(), EncodeError> {
        put(alloc, fields, &self.p)?;
        put(alloc, fields, &self.q)?;
        put(alloc, fields, &self.g)?;
        Ok(())
    }

    fn read_fields(alloc: Global, fields: &mut Fields<'_>) -> Result<Self, DecodeError> {
        Ok(DssParams {
            p: required(alloc, fields)?,
            q: required(alloc, fields)?,
            g: required(alloc, fields)?,
        })
    }
}

/// A DSA signature (RFC 3279, 2.2.2).
#[derive(Clone, Debug, Drop, PartialEq, Eq, Hash)]
pub struct DssSigValue {
    /// The number r.
    pub r: Integer,
    /// The number s.
    pub s: Integer,
}

impl TryClone for DssSigValue {
    ghost copies_are_equal = { Prim.search rules };
}

impl Form for DssSigValue {
    ghost codec = { dss_sig_value };
}

#[tactic(auto, unfolding(crate::specs::Algorithms::dss_sig_value_fields))]
impl Sequence for DssSigValue {
    ghost layout = { dss_sig_value_fields };

    ghost is_sequence = { refl };

    fn put_fields(&self, alloc: Global, fields: &mut Trees) -> Result<(), EncodeError> {
        put(alloc, fields, &self.r)?;
        put(alloc, fields, &self.s)?;
        Ok(())
    }

    fn read_fields(alloc: Global, fields: &mut Fields<'_>) -> Result<Self, DecodeError> {
        Ok(DssSigValue {
            r: required(alloc, fields)?,
            s: required(alloc, fields)?,
        })
    }
}

/// An RSA public key (RFC 3279, 2.3.1).
#[derive(Clone, Debug, Drop, PartialEq, Eq, Hash)]
pub struct RsaPublicKey {
    /// The number n.
    pub modulus: Integer,
    /// The number e.
    pub public_exponent: Integer,
}

impl TryClone for RsaPublicKey {
    ghost copies_are_equal = { Prim.search rules };
}

impl Form for RsaPublicKey {
    ghost codec = { rsa_public_key };
}

#[tactic(auto, unfolding(crate::specs::Algorithms::rsa_public_key_fields))]
impl Sequence for RsaPublicKey {
    ghost layout = { rsa_public_key_fields };

    ghost is_sequence = { refl };

    fn put_fields(&self, alloc: Global, fields: &mut Trees) -> Result<(), EncodeError> {
        put(alloc, fields, &self.modulus)?;
        put(alloc, fields, &self.public_exponent)?;
        Ok(())
    }

    fn read_fields(alloc: Global, fields: &mut Fields<'_>) -> Result<Self, DecodeError> {
        Ok(RsaPublicKey {
            modulus: required(alloc, fields)?,
            public_exponent: required(alloc, fields)?,
        })
    }
}

/// The parameters of a Diffie-Hellman key (RFC 3279, 2.3.3).
#[derive(Clone, Debug, Drop, PartialEq, Eq, Hash)]
pub struct DomainParameters {
    /// The odd prime.
    pub p: Integer,
    /// The generator.
    pub g: Integer,
    /// A prime factor of `p` - 1.
    pub q: Integer,
    /// The cofactor, 2 or more.
    pub j: Option<Integer>,
    /// What the numbers were made from.
    pub validation_params: Option<ValidationParams>,
}

impl TryClone for DomainParameters {
    ghost copies_are_equal = { Prim.search rules };
}

impl Form for DomainParameters {
    ghost codec = { domain_parameters };
}

#[tactic(auto, unfolding(crate::specs::Algorithms::domain_parameters_fields))]
impl Sequence for DomainParameters {
    ghost layout = { domain_parameters_fields };

    ghost is_sequence = { refl };

    fn put_fields(&self, alloc: Global, fields: &mut Trees) -> Result<(), EncodeError> {
        put(alloc, fields, &self.p)?;
        put(alloc, fields, &self.g)?;
        put(alloc, fields, &self.q)?;
        put_optional(alloc, fields, self.j.as_ref())?;
        put_optional(alloc, fields, self.validation_params.as_ref())?;
        Ok(())
    }

    fn read_fields(alloc: Global, fields: &mut Fields<'_>) -> Result<Self, DecodeError> {
        Ok(DomainParameters {
            p: required(alloc, fields)?,
            g: required(alloc, fields)?,
            q: required(alloc, fields)?,
            j: optional(alloc, fields)?,
            validation_params: optional(alloc, fields)?,
        })
    }
}

/// What the parameters of a Diffie-Hellman key were made from (RFC 3279, 2.3.3).
#[derive(Clone, Debug, Drop, PartialEq, Eq, Hash)]
pub struct ValidationParams {
    /// The seed of the generation.
    seed: BitString,
    /// The counter that the generation ended with.
    pgen_counter: Integer,
}

impl ValidationParams {
    /// The value of these fields.
    pub fn new(seed: BitString, pgen_counter: Integer) -> ValidationParams
        ensures seed { result.seed ≡ seed }
        ensures pgen_counter { result.pgen_counter ≡ pgen_counter }
    {
        ValidationParams { seed, pgen_counter }
    }

    /// The seed of the generation.
    pub fn seed(&self) -> &BitString
        ensures { result.now ≡ self.now.seed }
    {
        &self.seed
    }

    /// The counter that the generation ended with.
    pub fn pgen_counter(&self) -> &Integer
        ensures { result.now ≡ self.now.pgen_counter }
    {
        &self.pgen_counter
    }
}

impl TryClone for ValidationParams {
    ghost copies_are_equal = { Prim.search rules };
}

impl Form for ValidationParams {
    ghost codec = { validation_params };
}

#[tactic(auto, unfolding(crate::specs::Algorithms::validation_params_fields))]
impl Sequence for ValidationParams {
    ghost layout = { validation_params_fields };

    ghost is_sequence = { refl };

    fn put_fields(&self, alloc: Global, fields: &mut Trees) -> Result<(), EncodeError> {
        put(alloc, fields, &self.seed)?;
        put(alloc, fields, &self.pgen_counter)?;
        Ok(())
    }

    fn read_fields(alloc: Global, fields: &mut Fields<'_>) -> Result<Self, DecodeError> {
        Ok(ValidationParams {
            seed: required(alloc, fields)?,
            pgen_counter: required(alloc, fields)?,
        })
    }
}

/// The field of a curve (RFC 3279, 2.3.5).
#[derive(Clone, Debug, Drop, PartialEq, Eq, Hash)]
pub struct FieldId {
    /// Of what kind the field is.
    field_type: ObjectIdentifier,
    /// The parameters that the kind has.
    parameters: Any,
}

impl FieldId {
    /// The value of these fields.
    pub fn new(field_type: ObjectIdentifier, parameters: Any) -> FieldId
        ensures field_type { result.field_type ≡ field_type }
        ensures parameters { result.parameters ≡ parameters }
    {
        FieldId {
            field_type,
            parameters,
        }
    }

    /// Of what kind the field is.
    pub fn field_type(&self) -> &ObjectIdentifier
        ensures { result.now ≡ self.now.field_type }
    {
        &self.field_type
    }

    /// The parameters that the kind has.
    pub fn parameters(&self) -> &Any
        ensures { result.now ≡ self.now.parameters }
    {
        &self.parameters
    }
}

impl TryClone for FieldId {
    ghost copies_are_equal = { Prim.search rules };
}

impl Form for FieldId {
    ghost codec = { field_id };
}

#[tactic(auto, unfolding(crate::specs::Algorithms::field_id_fields))]
impl Sequence for FieldId {
    ghost layout = { field_id_fields };

    ghost is_sequence = { refl };

    fn put_fields(&self, alloc: Global, fields: &mut Trees) -> Result<(), EncodeError> {
        put(alloc, fields, &self.field_type)?;
        put(alloc, fields, &self.parameters)?;
        Ok(())
    }

    fn read_fields(alloc: Global, fields: &mut Fields<'_>) -> Result<Self, DecodeError> {
        Ok(FieldId {
            field_type: required(alloc, fields)?,
            parameters: required(alloc, fields)?,
        })
    }
}

/// An ECDSA signature (RFC 3279, 2.2.3).
#[derive(Clone, Debug, Drop, PartialEq, Eq, Hash)]
pub struct EcdsaSigValue {
    /// The number r.
    r: Integer,
    /// The number s.
    s: Integer,
}

impl EcdsaSigValue {
    /// The value of these fields.
    pub fn new(r: Integer, s: Integer) -> EcdsaSigValue
        ensures r { result.r ≡ r }
        ensures s { result.s ≡ s }
    {
        EcdsaSigValue { r, s }
    }

    /// The number r.
    pub fn r(&self) -> &Integer
        ensures { result.now ≡ self.now.r }
    {
        &self.r
    }

    /// The number s.
    pub fn s(&self) -> &Integer
        ensures { result.now ≡ self.now.s }
    {
        &self.s
    }
}

impl TryClone for EcdsaSigValue {
    ghost copies_are_equal = { Prim.search rules };
}

impl Form for EcdsaSigValue {
    ghost codec = { ecdsa_sig_value };
}

#[tactic(auto, unfolding(crate::specs::Algorithms::ecdsa_sig_value_fields))]
impl Sequence for EcdsaSigValue {
    ghost layout = { ecdsa_sig_value_fields };

    ghost is_sequence = { refl };

    fn put_fields(&self, alloc: Global, fields: &mut Trees) -> Result<(), EncodeError> {
        put(alloc, fields, &self.r)?;
        put(alloc, fields, &self.s)?;
        Ok(())
    }

    fn read_fields(alloc: Global, fields: &mut Fields<'_>) -> Result<Self, DecodeError> {
        Ok(EcdsaSigValue {
            r: required(alloc, fields)?,
            s: required(alloc, fields)?,
        })
    }
}

/// The parameters of a field of 2^m elements (RFC 3279, 2.3.5).
#[derive(Clone, Debug, Drop, PartialEq, Eq, Hash)]
pub struct CharacteristicTwo {
    /// The exponent of the number of elements.
    m: Integer,
    /// Of what kind the basis is.
    basis: ObjectIdentifier,
    /// The parameters that the kind has.
    parameters: Any,
}

impl CharacteristicTwo {
    /// The value of these fields.
    pub fn new(m: Integer, basis: ObjectIdentifier, parameters: Any) -> CharacteristicTwo
        ensures m { result.m ≡ m }
        ensures basis { result.basis ≡ basis }
        ensures parameters { result.parameters ≡ parameters }
    {
        CharacteristicTwo {
            m,
            basis,
            parameters,
        }
    }

    /// The exponent of the number of elements.
    pub fn m(&self) -> &Integer
        ensures { result.now ≡ self.now.m }
    {
        &self.m
    }

    /// Of what kind the basis is.
    pub fn basis(&self) -> &ObjectIdentifier
        ensures { result.now ≡ self.now.basis }
    {
        &self.basis
    }

    /// The parameters that the kind has.
    pub fn parameters(&self) -> &Any
        ensures { result.now ≡ self.now.parameters }
    {
        &self.parameters
    }
}

impl TryClone for CharacteristicTwo {
    ghost copies_are_equal = { Prim.search rules };
}

impl Form for CharacteristicTwo {
    ghost codec = { characteristic_two };
}

#[tactic(auto, unfolding(crate::specs::Algorithms::characteristic_two_fields))]
impl Sequence for CharacteristicTwo {
    ghost layout = { characteristic_two_fields };

    ghost is_sequence = { refl };

    fn put_fields(&self, alloc: Global, fields: &mut Trees) -> Result<(), EncodeError> {
        put(alloc, fields, &self.m)?;
        put(alloc, fields, &self.basis)?;
        put(alloc, fields, &self.parameters)?;
        Ok(())
    }

    fn read_fields(alloc: Global, fields: &mut Fields<'_>) -> Result<Self, DecodeError> {
        Ok(CharacteristicTwo {
            m: required(alloc, fields)?,
            basis: required(alloc, fields)?,
            parameters: required(alloc, fields)?,
        })
    }
}

/// The middle exponents of a pentanomial x^m + x^k3 + x^k2 + x^k1 + 1, as a basis of a field (RFC 3279, 2.3.5).
#[derive(Clone, Debug, Drop, PartialEq, Eq, Hash)]
pub struct Pentanomial {
    /// The least exponent.
    k1: Integer,
    /// The exponent between.
    k2: Integer,
    /// The greatest exponent.
    k3: Integer,
}

impl Pentanomial {
    /// The value of these fields.
    pub fn new(k1: Integer, k2: Integer, k3: Integer) -> Pentanomial
        ensures k1 { result.k1 ≡ k1 }
        ensures k2 { result.k2 ≡ k2 }
        ensures k3 { result.k3 ≡ k3 }
    {
        Pentanomial { k1, k2, k3 }
    }

    /// The least exponent.
    pub fn k1(&self) -> &Integer
        ensures { result.now ≡ self.now.k1 }
    {
        &self.k1
    }

    /// The exponent between.
    pub fn k2(&self) -> &Integer
        ensures { result.now ≡ self.now.k2 }
    {
        &self.k2
    }

    /// The greatest exponent.
    pub fn k3(&self) -> &Integer
        ensures { result.now ≡ self.now.k3 }
    {
        &self.k3
    }
}

impl TryClone for Pentanomial {
    ghost copies_are_equal = { Prim.search rules };
}

impl Form for Pentanomial {
    ghost codec = { pentanomial };
}

#[tactic(auto, unfolding(crate::specs::Algorithms::pentanomial_fields))]
impl Sequence for Pentanomial {
    ghost layout = { pentanomial_fields };

    ghost is_sequence = { refl };

    fn put_fields(&self, alloc: Global, fields: &mut Trees) -> Result<(), EncodeError> {
        put(alloc, fields, &self.k1)?;
        put(alloc, fields, &self.k2)?;
        put(alloc, fields, &self.k3)?;
        Ok(())
    }

    fn read_fields(alloc: Global, fields: &mut Fields<'_>) -> Result<Self, DecodeError> {
        Ok(Pentanomial {
            k1: required(alloc, fields)?,
            k2: required(alloc, fields)?,
            k3: required(alloc, fields)?,
        })
    }
}

/// The parameters of an EC key (RFC 3279, 2.3.5).
#[derive(Clone, Debug, Drop, PartialEq, Eq, Hash)]
pub enum EcpkParameters {
    /// All of them.
    EcParameters(EcParameters),
    /// Those of a curve that has a name.
    NamedCurve(ObjectIdentifier),
    /// Those of the issuer's key.
    ImplicitlyCa(()),
}

impl TryClone for EcpkParameters {
    ghost copies_are_equal = { Prim.search rules };
}

impl Form for EcpkParameters {
    ghost codec = { ecpk_parameters };
}

impl DerType for EcpkParameters {
    ghost TAG = { None };

    ghost tag_is = { refl };

    const TAG: Option<Tag> = None;

    fn starts(tag: Tag) -> bool {
        EcParameters::starts(tag) || ObjectIdentifier::starts(tag) || <()>::starts(tag)
    }

    fn to_tree(&self, alloc: Global) -> Result<Tree, EncodeError> {
        match self {
            EcpkParameters::EcParameters(value) => value.to_tree(alloc),
            EcpkParameters::NamedCurve(value) => value.to_tree(alloc),
            EcpkParameters::ImplicitlyCa(value) => value.to_tree(alloc),
        }
    }

    fn from_tree(alloc: Global, window: Window<'_>) -> Result<Self, DecodeError> {
        let tag = window.tag();
        if EcParameters::starts(tag) {
            Ok(EcpkParameters::EcParameters(EcParameters::from_tree(alloc, window)?))
        } else if ObjectIdentifier::starts(tag) {
            Ok(EcpkParameters::NamedCurve(ObjectIdentifier::from_tree(alloc, window)?))
        } else {
            Ok(EcpkParameters::ImplicitlyCa(<()>::from_tree(alloc, window)?))
        }
    }
}

/// The parameters of a curve (RFC 3279, 2.3.5).
#[derive(Clone, Debug, Drop, PartialEq, Eq, Hash)]
pub struct EcParameters {
    /// The version, 1.
    ec_parameters: EcpVer,
    /// The field of the curve.
    named_curve: FieldId,
    /// The equation.
    curve: Curve,
    /// The base point.
    base: EcPoint,
    /// The order of the base point.
    order: Integer,
    /// The number of points through the order of the base point.
    cofactor: Option<Integer>,
}

impl EcParameters {
    /// The value of these fields.
    pub fn new(
        ec_parameters: EcpVer,
        named_curve: FieldId,
        curve: Curve,
        base: EcPoint,
        order: Integer,
        cofactor: Option<Integer>,
    ) -> EcParameters
        ensures ec_parameters { result.ec_parameters ≡ ec_parameters }
        ensures named_curve { result.named_curve ≡ named_curve }
        ensures curve { result.curve ≡ curve }
        ensures base { result.base ≡ base }
        ensures order { result.order ≡ order }
        ensures cofactor { result.cofactor ≡ cofactor }
    {
        EcParameters {
            ec_parameters,
            named_curve,
            curve,
            base,
            order,
            cofactor,
        }
    }

    /// The version, 1.
    pub fn ec_parameters(&self) -> &EcpVer
        ensures { result.now ≡ self.now.ec_parameters }
    {
        &self.ec_parameters
    }

    /// The field of the curve.
    pub fn named_curve(&self) -> &FieldId
        ensures { result.now ≡ self.now.named_curve }
    {
        &self.named_curve
    }

    /// The equation.
    pub fn curve(&self) -> &Curve
        ensures { result.now ≡ self.now.curve }
    {
        &self.curve
    }

    /// The base point.
    pub fn base(&self) -> &EcPoint
        ensures { result.now ≡ self.now.base }
    {
        &self.base
    }

    /// The order of the base point.
    pub fn order(&self) -> &Integer
        ensures { result.now ≡ self.now.order }
    {
        &self.order
    }

    /// The number of points through the order of the base point.
    pub fn cofactor(&self) -> &Option<Integer>
        ensures { result.now ≡ self.now.cofactor }
    {
        &self.cofactor
    }
}

impl TryClone for EcParameters {
    ghost copies_are_equal = { Prim.search rules };
}

impl Form for EcParameters {
    ghost codec = { ec_parameters };
}

#[tactic(auto, unfolding(crate::specs::Algorithms::ec_parameters_fields))]
impl Sequence for EcParameters {
    ghost layout = { ec_parameters_fields };

    ghost is_sequence = { refl };

    fn put_fields(&self, alloc: Global, fields: &mut Trees) -> Result<(), EncodeError> {
        put(alloc, fields, &self.ec_parameters)?;
        put(alloc, fields, &self.named_curve)?;
        put(alloc, fields, &self.curve)?;
        put(alloc, fields, &self.base)?;
        put(alloc, fields, &self.order)?;
        put_optional(alloc, fields, self.cofactor.as_ref())?;
        Ok(())
    }

    fn read_fields(alloc: Global, fields: &mut Fields<'_>) -> Result<Self, DecodeError> {
        Ok(EcParameters {
            ec_parameters: required(alloc, fields)?,
            named_curve: required(alloc, fields)?,
            curve: required(alloc, fields)?,
            base: required(alloc, fields)?,
            order: required(alloc, fields)?,
            cofactor: optional(alloc, fields)?,
        })
    }
}

/// The equation of a curve (RFC 3279, 2.3.5).
#[derive(Clone, Debug, Drop, PartialEq, Eq, Hash)]
pub struct Curve {
    /// The first coefficient.
    a: FieldElement,
    /// The second coefficient.
    b: FieldElement,
    /// What the coefficients were made from.
    seed: Option<BitString>,
}

impl Curve {
    /// The value of these fields.
    pub fn new(a: FieldElement, b: FieldElement, seed: Option<BitString>) -> Curve
        ensures a { result.a ≡ a }
        ensures b { result.b ≡ b }
        ensures seed { result.seed ≡ seed }
    {
        Curve { a, b, seed }
    }

    /// The first coefficient.
    pub fn a(&self) -> &FieldElement
        ensures { result.now ≡ self.now.a }
    {
        &self.a
    }

    /// The second coefficient.
    pub fn b(&self) -> &FieldElement
        ensures { result.now ≡ self.now.b }
    {
        &self.b
    }

    /// What the coefficients were made from.
    pub fn seed(&self) -> &Option<BitString>
        ensures { result.now ≡ self.now.seed }
    {
        &self.seed
    }
}

impl TryClone for Curve {
    ghost copies_are_equal = { Prim.search rules };
}

impl Form for Curve {
    ghost codec = { curve };
}

#[tactic(auto, unfolding(crate::specs::Algorithms::curve_fields))]
impl Sequence for Curve {
    ghost layout = { curve_fields };

    ghost is_sequence = { refl };

    fn put_fields(&self, alloc: Global, fields: &mut Trees) -> Result<(), EncodeError> {
        put(alloc, fields, &self.a)?;
        put(alloc, fields, &self.b)?;
        put_optional(alloc, fields, self.seed.as_ref())?;
        Ok(())
    }

    fn read_fields(alloc: Global, fields: &mut Fields<'_>) -> Result<Self, DecodeError> {
        Ok(Curve {
            a: required(alloc, fields)?,
            b: required(alloc, fields)?,
            seed: optional(alloc, fields)?,
        })
    }
}
