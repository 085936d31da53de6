//! The certificates of a path by name with commas between them, from the one that the anchor issued (`-`: none),
//! the anchor's certificate, a time as a GeneralizedTime has it, flags (`-`, or letters of `m`, `e` and `a`:
//! mapping inhibited, a policy required, anyPolicy inhibited), the policies of the user by their arcs with
//! commas between them (`any`: any), what is known of revocation, a letter a certificate (`g`, `r`, `u`;
//! `none`: not asked), and the permitted and the excluded subtrees, each the hex of GeneralSubtrees (`-`: none).
use crate::octets::{value_in, value_of};
use asn1_core::{GeneralizedTime, ObjectIdentifier, Oid};
use case_octets::NamedOctets;
use der_tree::SequenceOf;
use jiff::civil::DateTime;
use path_validation::{
    PathError, PathInputs, RevocationStatus, TrustAnchor, ValidPath, validate_path,
};
use pkix_cert::{CertificateView, CrlReason, GeneralSubtrees};
use signature_verifier::SignatureVerifier;
use std::alloc::Global;

/// What a line says beside its certificates.
#[derive(Drop)]
struct Asked<'a> {
    at: DateTime,
    flags: &'a str,
    policies: &'a str,
    statuses: &'a str,
    permitted: &'a str,
    excluded: &'a str,
}

fn asked_in(words: &str) -> Option<Asked<'_>> {
    let (time, rest) = words.split_once(' ')?;
    let time = GeneralizedTime::from_contents(time.as_bytes())?;
    let (flags, rest) = rest.split_once(' ')?;
    let (policies, rest) = rest.split_once(' ')?;
    let (statuses, rest) = rest.split_once(' ')?;
    let (permitted, excluded) = rest.split_once(' ')?;
    Some(Asked {
        at: time.at,
        flags,
        policies,
        statuses,
        permitted,
        excluded,
    })
}

fn views<'a>(
    alloc: Global,
    named: &'a NamedOctets,
    names: &str,
) -> Option<Vec<CertificateView<'a>>> {
    let mut views = Vec::new(alloc);
    if names == "-" {
        return Some(views);
    }
    for name in names.split(',') {
        let view = CertificateView::new(named.octets(name)?)?;
        views.push(view).ok()?;
    }
    Some(views)
}

fn status_of(letter: char, at: DateTime) -> RevocationStatus {
    match letter {
        'g' => RevocationStatus::Good,
        'r' => RevocationStatus::Revoked {
            at,
            reason: CrlReason::Unspecified,
        },
        _ => RevocationStatus::Undetermined,
    }
}

fn statuses(
    alloc: Global,
    text: &str,
    at: DateTime,
) -> Option<Option<SequenceOf<RevocationStatus>>> {
    if text == "none" {
        return Some(None);
    }
    let mut statuses = SequenceOf::new(alloc);
    for letter in text.chars() {
        statuses.push(status_of(letter, at)).ok()?;
    }
    Some(Some(statuses))
}

fn policies(alloc: Global, text: &str) -> Option<Option<SequenceOf<ObjectIdentifier>>> {
    if text == "any" {
        return Some(None);
    }
    let mut policies = SequenceOf::new(alloc);
    for word in text.split(',') {
        policies.push(Oid::parse(alloc, word).ok()?).ok()?;
    }
    Some(Some(policies))
}

fn subtrees(alloc: Global, digits: &str) -> Option<GeneralSubtrees> {
    match digits {
        "-" => Some(SequenceOf::new(alloc)),
        digits => value_of(alloc, digits),
    }
}

fn anchor_of(alloc: Global, octets: &[u8]) -> Option<TrustAnchor> {
    let view = CertificateView::new(octets)?;
    let name = value_in(alloc, view.subject())?;
    let key_info = value_in(alloc, view.key_info())?;
    Some(TrustAnchor { name, key_info })
}

// What is asked of the anchor with this certificate.
fn inputs_of(alloc: Global, anchor: &[u8], asked: &Asked<'_>) -> Option<PathInputs> {
    let user_initial_policy_set = policies(alloc, asked.policies)?;
    let statuses = statuses(alloc, asked.statuses, asked.at)?;
    let initial_permitted_subtrees = subtrees(alloc, asked.permitted)?;
    let initial_excluded_subtrees = subtrees(alloc, asked.excluded)?;
    let anchor = anchor_of(alloc, anchor)?;
    Some(PathInputs {
        at: asked.at,
        user_initial_policy_set,
        anchor,
        initial_policy_mapping_inhibit: asked.flags.contains('m'),
        initial_explicit_policy: asked.flags.contains('e'),
        initial_any_policy_inhibit: asked.flags.contains('a'),
        initial_permitted_subtrees,
        initial_excluded_subtrees,
        statuses,
    })
}

fn list_text(alloc: Global, list: &SequenceOf<ObjectIdentifier>) -> Option<String> {
    let mut text = String::new(alloc);
    for policy in list.as_slice() {
        text.push_str(" ").ok()?;
        for arc in policy.arcs() {
            let part = format!(in alloc; ".{arc}").ok()?;
            text.push_str(part.as_str()).ok()?;
        }
    }
    Some(text)
}

fn valid_text(alloc: Global, valid: &ValidPath) -> Option<String> {
    let authority = list_text(alloc, &valid.authority_constrained_policies)?;
    let user = list_text(alloc, &valid.user_constrained_policies)?;
    format!(in alloc; "valid authority{authority} user{user}").ok()
}

fn fault_text(alloc: Global, fault: PathError) -> Option<String> {
    format!(in alloc; "invalid {fault}").ok()
}

fn outcome_text(
    alloc: Global,
    path: &[CertificateView<'_>],
    inputs: &PathInputs,
) -> Option<String> {
    match validate_path(alloc, path, inputs, &SignatureVerifier::with_sha1()) {
        Ok(valid) => valid_text(alloc, &valid),
        Err(fault) => fault_text(alloc, fault),
    }
}

/// What comes of the path of these words; none where they are otherwise, or memory runs out.
pub fn answer(alloc: Global, named: &NamedOctets, words: &str) -> Option<String> {
    let (names, rest) = words.split_once(' ')?;
    let (anchor, rest) = rest.split_once(' ')?;
    let Some(asked) = asked_in(rest) else {
        return None;
    };
    let path = views(alloc, named, names)?;
    let inputs = inputs_of(alloc, named.octets(anchor)?, &asked)?;
    outcome_text(alloc, path.as_slice(), &inputs)
}
