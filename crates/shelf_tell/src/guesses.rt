//! What is meant by a key or a word that isn't known.
use crate::order_keys::Key;
use std::alloc::{AllocError, Global};
use strsim::levenshtein;

/// How many octets a word has at most of which the nearest is looked for.
const COMPARED: usize = 40;

/// What other programs and standards call a key, in small letters without `_` and `-`, and the keys that it is here: of two lines for
/// one word that one is meant whose keys the table has.
const GUESSES: &str = "san alt_names
sans alt_names
subjectaltname alt_names
subjectaltnames alt_names
subjectalternativename alt_names
subjectalternativenames alt_names
alternativenames alt_names
names alt_names
dns alt_names
dnsname alt_names
dnsnames alt_names
domains alt_names
host alt_names
hosts alt_names
hostname alt_names
hostnames alt_names
ip alt_names
ipaddresses alt_names
email alt_names
emails alt_names
uri alt_names
uris alt_names
pathlength ca
pathlen ca
pathlenconstraint ca
maxpathlen ca
maxpathlength ca
isca ca
basicconstraints ca
notbefore start
validfrom start
startdate start
from start
begin start
notafter not_after
end not_after
enddate not_after
expires not_after
expiry not_after
expiration not_after
validto not_after
validuntil not_after
until not_after
validity days
validitydays days
validdays days
validfor days
lifetime days
duration days
eku extended_key_usages
ekus extended_key_usages
extkeyusage extended_key_usages
extkeyusages extended_key_usages
extendedkeyusage extended_key_usages
purpose extended_key_usages
purposes extended_key_usages
ku key_usages
keyusage key_usages
usage key_usages
usages key_usages
cdp crl_points
crl crl_points
crls crl_points
crlurl crl_points
crlurls crl_points
crldp crl_points
crldps crl_points
crldistributionpoint crl_points
crldistributionpoints crl_points
aia ocsp ca_issuers
authorityinfoaccess ocsp ca_issuers
authorityinformationaccess ocsp ca_issuers
ocspurl ocsp
ocspurls ocsp
ocspserver ocsp
ocspservers ocsp
ocspresponder ocsp
issuerurl ca_issuers
caissuer ca_issuers
nameconstraint permitted excluded
nameconstraints permitted excluded
permittedsubtrees permitted
permitteddns permitted
excludedsubtrees excluded
excludeddns excluded
cn common_name
dn subject
name subject
distinguishedname distinguished_name subject
certificatepolicies policies
policy policies
policyidentifiers policies
serialnumber serial
crlnumber number
basecrlnumber base
basecrl base
basenumber base
delta base
deltacrl base
deltacrlindicator base
type kind
what kind
template profile
preset profile
hash digest
md digest
hashalgorithm digest
digestalgorithm digest
signaturealgorithm digest
rsapaddingmode padding
paddingmode padding
copy take
copyextensions take
copyfromrequest take
ski key_id
subjectkeyid key_id
subjectkeyidentifier key_id
aki authority_key_id
authoritykeyidentifier authority_key_id
ext extensions
extension extensions
customextensions extensions
extraextensions extensions
ocspnocheck extensions
nocheck extensions
tlsfeature extensions
muststaple extensions
ignore ignored_extensions
ignoreextensions ignored_extensions
skipextensions ignored_extensions
unchecked unchecked_request
weak weak_key
weakkeys weak_key
allowweakkey weak_key
copycommonname copy_cn
cnassan copy_cn
addcntosan copy_cn
lastupdate this_update
issued this_update
crl revocation
crls revocation
checkcrl revocation
entries revoked
revokedcertificates revoked
revocations revoked
idp points
issuingdistributionpoint points
crlpoints points
distributionpoints points
date time
revokedat time
revocationdate time
reasoncode reason
invaliditydate invalid
invalidity invalid
id oid
type oid
value content
values content
data content
der content
hex content
contents content
iscritical critical
crit critical
value values
content values
der values
owner holder
attribute attributes
time at
when at
date at
now at
attime at
requireexplicitpolicy explicit_policy
inhibitmapping inhibit_policy_mapping
inhibitany inhibit_any_policy
";

/// A word in small letters, without `_` and `-`.
fn folded(alloc: Global, word: &str) -> Result<String, AllocError> {
    let mut text = String::new(alloc);
    for character in word.chars() {
        if character != '_' && character != '-' {
            text.push(character.to_ascii_lowercase())?;
        }
    }
    Ok(text)
}

/// Whether a table has the key.
pub(crate) fn has_key(keys: &[Key], name: &str) -> bool {
    keys.iter().any(|key| key.name == name)
}

/// Whether a table has all these keys, which spaces part.
fn has_keys(keys: &[Key], names: &str) -> bool {
    names.split(' ').all(|name| has_key(keys, name))
}

/// The keys of a table that are meant by a folded word.
fn guessed(keys: &[Key], word: &str) -> Option<&'static str> {
    for line in GUESSES.lines() {
        if let Some((guess, names)) = line.split_once(' ')
            && guess == word
            && has_keys(keys, names)
        {
            return Some(names);
        }
    }
    None
}

/// Whether a word is the name that other programs have for some key.
pub(crate) fn is_guessed(alloc: Global, word: &str) -> Result<bool, AllocError> {
    if word.len() > COMPARED {
        return Ok(false);
    }
    let folded = folded(alloc, word)?;
    for line in GUESSES.lines() {
        if let Some((guess, _)) = line.split_once(' ')
            && guess == folded.as_str()
        {
            return Ok(true);
        }
    }
    Ok(false)
}

/// The nearest word so far, and how far it is.
#[derive(Clone, Copy, Debug)]
struct Nearest {
    word: &'static str,
    distance: usize,
}

/// The nearer of this word and the nearest so far.
fn nearer(
    alloc: Global,
    folded_word: &str,
    word: &'static str,
    nearest: Option<Nearest>,
) -> Result<Option<Nearest>, AllocError> {
    let other = folded(alloc, word)?;
    let distance = levenshtein(alloc, folded_word, other.as_str())?;
    if distance > 1 && distance > folded_word.len() / 3 {
        return Ok(nearest);
    }
    match nearest {
        Some(best) if best.distance <= distance => Ok(Some(best)),
        _ => Ok(Some(Nearest { word, distance })),
    }
}

/// The key that is nearest to a folded word, where one is near.
fn nearest_key(
    alloc: Global,
    folded_word: &str,
    keys: &[Key],
) -> Result<Option<Nearest>, AllocError> {
    let mut nearest = None;
    for key in keys {
        nearest = nearer(alloc, folded_word, key.name, nearest)?;
    }
    Ok(nearest)
}

/// The word, of those that spaces part, that is nearest to one, where one is near.
pub(crate) fn nearest_word(
    alloc: Global,
    word: &str,
    words: &'static str,
) -> Result<Option<&'static str>, AllocError> {
    if word.len() > COMPARED {
        return Ok(None);
    }
    let folded_word = folded(alloc, word)?;
    let mut nearest = None;
    for other in words.split(' ') {
        nearest = nearer(alloc, folded_word.as_str(), other, nearest)?;
    }
    match nearest {
        Some(Nearest { word, .. }) => Ok(Some(word)),
        None => Ok(None),
    }
}

/// Adds the keys, which spaces part, with `and` between them.
fn push_keys(text: &mut String, names: &str) -> Result<(), AllocError> {
    let mut is_first = true;
    for name in names.split(' ') {
        if !is_first {
            text.push_str(" and ")?;
        }
        text.push_str(name)?;
        is_first = false;
    }
    Ok(())
}

/// The message about an unknown key: with the keys that are meant, or the nearest, if there are any.
pub(crate) fn unknown_key(alloc: Global, name: &str, keys: &[Key]) -> Result<String, AllocError> {
    let mut text = String::from_str(alloc, "unknown key")?;
    if name.len() > COMPARED {
        return Ok(text);
    }
    let folded_name = folded(alloc, name)?;
    if let Some(names) = guessed(keys, folded_name.as_str()) {
        text.push_str(": use ")?;
        push_keys(&mut text, names)?;
        return Ok(text);
    }
    if let Some(Nearest { word, .. }) = nearest_key(alloc, folded_name.as_str(), keys)? {
        text.push_str(": use ")?;
        text.push_str(word)?;
    }
    Ok(text)
}
