//! What is to be signed, and what is issued with the signature.
ghost use Rattle.std.specs.Prelude.{◌≡◌, true, IfErr, IfOk};
ghost use Rattle.pem.specs.Abnf.{is_label};
ghost use Rattle.rcgen_certificate.specs.Issuers.{key_of as issuer_key, view_of};
ghost use Rattle.rcgen_certificate.specs.ParamsView.{params_view};
ghost use Rattle.shelf_fault.specs.Faults.{Gets, Passes};
ghost use Rattle.shelf_job.specs.Jobs.{IsMessage, IsSealed, attribute_issuer, certificate_issuer, issuer_by, key_of, label, list_issuer, own_named, ready, broken_rules};
ghost use Rattle.shelf_keys.specs.Signatures.{checked};
ghost use Rattle.pkix_rules.specs.Attributes.{attribute_certificate_rules};
ghost use Rattle.pkix_rules.specs.Lists.{list_rules};
ghost use Rattle.shelf_fault.specs.declared.fault.Fault.TheVariants as fault;
ghost use Rattle.shelf_job.specs.declared.job.Job.TheVariants as job;

use crate::calls::{attribute_message, certificate_message, list_message, request_message};
use crate::issuer::{issuer_of, signs_certificates, signs_digitally};
use crate::job::{AttributeJob, CertificateJob, Job, ListJob, RequestJob};
use crate::weak_key::with_weak_key;
use asn1_core::{OutOfMemory, TryClone};
use pkix_cert::Name;
use pkix_rules::{attribute_certificate_rules, certificate_rules, list_rules, request_rules};
use rcgen_issue::{CertificateParams, Issuer, PublicKey, PublicKeyData, RefusingKey, SigningKey};
use rcgen_tbs::{
    assemble, assembled_as, assembled_is_issued, assembled_list, messages_are_elements,
};
use rule_table::Rule;
use shelf_fault::{Fault, IssuerFault};
use shelf_keys::checked;
use std::alloc::{AllocError, Global};

/// The key as an issuer's, which is held elsewhere and signs nothing here.
fn held(alloc: Global, key: &PublicKey) -> Result<RefusingKey, AllocError>
    ensures { IfOk result (λ held. held ≡ key.now) }
{
    let octets = Vec::from_slice(alloc, key.der_bytes())?;
    Ok(RefusingKey::new(key.algorithm(), octets))
}

/// The subject of the certificate, whose key signs certificates.
#[tactic(auto, unfolding(crate::specs::Jobs::certificate_issuer))]
fn certificate_issuer<S: SigningKey + Drop>(
    alloc: Global,
    certificate: &[u8],
    key: S,
) -> Result<Issuer<'static, S>, Fault>
    ensures view { Gets (view_of S.key) (certificate_issuer certificate.now (S.key key)) result }
    ensures key { IfOk result (λ issuer. issuer_key issuer ≡ key) }
{
    let issuer = issuer_of(alloc, certificate, key)?;
    if signs_certificates(issuer.key_usages()) {
        Ok(issuer)
    } else {
        Err(Fault::Issuer(IssuerFault::NoCertSign))
    }
}

/// The subject of the certificate, whatever its key is for.
#[tactic(auto, unfolding(crate::specs::Jobs::list_issuer))]
fn list_issuer<S: SigningKey + Drop>(
    alloc: Global,
    certificate: &[u8],
    key: S,
) -> Result<Issuer<'static, S>, Fault>
    ensures view { Gets (view_of S.key) (list_issuer certificate.now (S.key key)) result }
    ensures key { IfOk result (λ issuer. issuer_key issuer ≡ key) }
{
    let issuer = issuer_of(alloc, certificate, key)?;
    Ok(issuer)
}

/// The subject of the certificate, whose key signs attribute certificates.
#[tactic(auto, unfolding(crate::specs::Jobs::attribute_issuer))]
fn attribute_issuer<S: SigningKey + Drop>(
    alloc: Global,
    certificate: &[u8],
    key: S,
) -> Result<Issuer<'static, S>, Fault>
    ensures view { Gets (view_of S.key) (attribute_issuer certificate.now (S.key key)) result }
    ensures key { IfOk result (λ issuer. issuer_key issuer ≡ key) }
{
    let issuer = issuer_of(alloc, certificate, key)?;
    if signs_digitally(issuer.key_usages()) {
        Ok(issuer)
    } else {
        Err(Fault::Issuer(IssuerFault::NoDigitalSignature))
    }
}

/// The subject itself, as an issuer with its own key, under this name where there is one.
fn own_issuer<S: SigningKey>(
    params: &CertificateParams,
    name: Option<Name>,
    key: S,
) -> Issuer<'_, S>
    ensures view { view_of S.key result ≡ own_named name (params_view params.now) (S.key key) }
    ensures key { issuer_key result ≡ key }
{
    let issuer = Issuer::from_params(params, key);
    match name {
        Some(name) => issuer.with_name(name),
        None => issuer,
    }
}

impl CertificateJob {
    /// Who issues: the subject of the issuer's certificate, or else the certificate's own subject.
    fn issuer_with<S: SigningKey + Drop>(
        &self,
        alloc: Global,
        key: S,
    ) -> Result<Issuer<'_, S>, Fault>
        ensures view { Gets (view_of S.key) (issuer_by self.now.issuer self.now.name self.now.params (S.key key)) result }
        ensures key { IfOk result (λ issuer. issuer_key issuer ≡ key) }
    {
        match &self.issuer {
            Some(certificate) => certificate_issuer(alloc, certificate.as_slice(), key),
            None => {
                let name = self.name.try_clone(alloc)?;
                Ok(own_issuer(&self.params, name, key))
            }
        }
    }

    /// The octets that the key is to sign.
    fn to_be_signed(&self, alloc: Global) -> Result<Vec<u8>, Fault>
        ensures message { IfOk result (λ m. IsMessage (job.Certificate self.now) m.items) }
        ensures ready { Passes (ready (job.Certificate self.now)) result }
    {
        let key = held(alloc, &self.key)?;
        let issuer = self.issuer_with(alloc, key)?;
        let message = certificate_message(alloc, &self.params, &self.subject, &self.name, &issuer)?;
        Ok(message)
    }

    /// The rules that it breaks, beside its issuer's certificate.
    fn broken_rules(&self, alloc: Global, message: &[u8]) -> Result<Vec<Rule>, OutOfMemory>
        ensures { IfOk result (λ w. w.items ≡ broken_rules (job.Certificate self.now) message.now) }
    {
        let issuer = match &self.issuer {
            Some(certificate) => Some(certificate.as_slice()),
            None => None,
        };
        let rules = certificate_rules(alloc, message, issuer)?;
        with_weak_key(self.weak_key, rules)
    }
}

impl RequestJob {
    /// The rules that it breaks.
    fn broken_rules(&self, alloc: Global, message: &[u8]) -> Result<Vec<Rule>, OutOfMemory>
        ensures { IfOk result (λ w. w.items ≡ broken_rules (job.Request self.now) message.now) }
    {
        let rules = request_rules(alloc, message)?;
        with_weak_key(self.weak_key, rules)
    }

    /// The octets that the key is to sign.
    fn to_be_signed(&self, alloc: Global) -> Result<Vec<u8>, Fault>
        ensures message { IfOk result (λ m. IsMessage (job.Request self.now) m.items) }
        ensures ready { Passes (ready (job.Request self.now)) result }
    {
        let key = held(alloc, &self.key)?;
        let message = request_message(alloc, &self.params, &self.name, &key)?;
        Ok(message)
    }
}

impl ListJob {
    /// The rules that it breaks, beside its issuer's certificate.
    fn broken_rules(&self, alloc: Global, message: &[u8]) -> Result<Vec<Rule>, OutOfMemory>
        ensures { IfOk result (λ w. w.items ≡ list_rules message.now (Some self.now.issuer)) }
    {
        list_rules(alloc, message, Some(self.issuer.as_slice()))
    }

    /// The octets that the key is to sign.
    fn to_be_signed(&self, alloc: Global) -> Result<Vec<u8>, Fault>
        ensures message { IfOk result (λ m. IsMessage (job.List self.now) m.items) }
        ensures ready { Passes (ready (job.List self.now)) result }
    {
        let key = held(alloc, &self.key)?;
        let issuer = list_issuer(alloc, self.issuer.as_slice(), key)?;
        let message = list_message(alloc, &self.params, &self.base, &issuer)?;
        Ok(message)
    }
}

impl AttributeJob {
    /// The rules that it breaks, beside its issuer's certificate.
    fn broken_rules(&self, alloc: Global, message: &[u8]) -> Result<Vec<Rule>, OutOfMemory>
        ensures { IfOk result (λ w. w.items ≡ attribute_certificate_rules message.now (Some self.now.issuer)) }
    {
        attribute_certificate_rules(alloc, message, Some(self.issuer.as_slice()))
    }

    /// The octets that the key is to sign.
    fn to_be_signed(&self, alloc: Global) -> Result<Vec<u8>, Fault>
        ensures message { IfOk result (λ m. IsMessage (job.Attribute self.now) m.items) }
        ensures ready { Passes (ready (job.Attribute self.now)) result }
    {
        let key = held(alloc, &self.key)?;
        let issuer = attribute_issuer(alloc, self.issuer.as_slice(), key)?;
        let message = attribute_message(alloc, &self.params, &issuer)?;
        Ok(message)
    }
}

impl Job {
    /// The label of the text of what is issued (RFC 7468, 5 to 7 and 12).
    pub fn label(&self) -> &'static [u8]
        ensures label { result.now ≡ label self.now }
        ensures form { is_label result.now ≡ true }
    {
        match self {
            Job::Certificate(_) => b"CERTIFICATE",
            Job::Request(_) => b"CERTIFICATE REQUEST",
            Job::List(_) => b"X509 CRL",
            Job::Attribute(_) => b"ATTRIBUTE CERTIFICATE",
        }
    }

    /// The key that signs.
    fn key(&self) -> &PublicKey
        ensures { result.now ≡ key_of self.now }
    {
        match self {
            Job::Certificate(job) => &job.key,
            Job::Request(job) => &job.key,
            Job::List(job) => &job.key,
            Job::Attribute(job) => &job.key,
        }
    }

    /// The octets that the key is to sign.
    pub fn to_be_signed(&self, alloc: Global) -> Result<Vec<u8>, Fault>
        ensures message { IfOk result (λ m. IsMessage self.now m.items) }
        ensures ready { Passes (ready self.now) result }
    {
        match self {
            Job::Certificate(job) => job.to_be_signed(alloc),
            Job::Request(job) => job.to_be_signed(alloc),
            Job::List(job) => job.to_be_signed(alloc),
            Job::Attribute(job) => job.to_be_signed(alloc),
        }
    }

    /// The DER of what is issued over the message with this signature.
    fn signed(&self, alloc: Global, message: &[u8], signature: &[u8]) -> Result<Vec<u8>, Fault>
        requires { IsMessage self.now message.now }
        ensures sealed { IfOk result (λ der. IsSealed self.now message.now signature.now der.items) }
        ensures memory { IfErr result (λ f. f ≡ fault.OutOfMemory) }
    {
        messages_are_elements();
        assembled_is_issued();
        assembled_as();
        assembled_list();
        let algorithm = self.key().algorithm();
        let octets = Vec::from_slice(alloc, message)?;
        let signature = Vec::from_slice(alloc, signature)?;
        let der = assemble(alloc, octets, algorithm, signature)?;
        Ok(der)
    }

    /// The DER of what is issued over the message with this signature, which is the key's.
    pub fn sealed(&self, alloc: Global, message: &[u8], signature: &[u8]) -> Result<Vec<u8>, Fault>
        requires { IsMessage self.now message.now }
        ensures sealed { IfOk result (λ der. IsSealed self.now message.now signature.now der.items) }
        ensures checked { Passes (checked (key_of self.now) message.now signature.now) result }
    {
        checked(alloc, self.key(), message, signature)?;
        let der = self.signed(alloc, message, signature)?;
        Ok(der)
    }

    /// The rules that what is to be signed breaks, beside its issuer's certificate where there is one.
    fn broken_rules(&self, alloc: Global, message: &[u8]) -> Result<Vec<Rule>, OutOfMemory>
        ensures { IfOk result (λ w. w.items ≡ broken_rules self.now message.now) }
    {
        match self {
            Job::Certificate(job) => job.broken_rules(alloc, message),
            Job::Request(job) => job.broken_rules(alloc, message),
            Job::List(job) => job.broken_rules(alloc, message),
            Job::Attribute(job) => job.broken_rules(alloc, message),
        }
    }

    /// The rules that what is to be signed breaks, beside its issuer's certificate where there is one.
    /// A list may have a million entries: the job's are freed before the message's are read.
    pub fn into_broken_rules(self, alloc: Global, message: &[u8]) -> Result<Vec<Rule>, OutOfMemory>
        ensures { IfOk result (λ w. w.items ≡ broken_rules self message.now) }
    {
        match self {
            Job::List(job) => {
                let issuer = job.into_issuer();
                list_rules(alloc, message, Some(issuer.as_slice()))
            }
            job => job.broken_rules(alloc, message),
        }
    }
}
