//! What an answer says of the lists and their entries.
ghost use Rattle.path_revocation.specs.Laws.{GoodIsCovered, GoodIsUnlisted, RevokedIsListed};

/// A law: a certificate is revoked only by an entry of its own, with its serial number and its
/// issuer, on a list that is in force, is of its issuer or of its point's, covers it, and is signed
/// by its own issuer, and that no other list supersedes, or on a delta list that is applied to such a
/// list. When and why are the entry's.
#[tactic(auto, using(crate::proofs::Telling::revoked_listed))]
pub fn revoked_is_listed()
    ensures { RevokedIsListed }
{}

/// A law: a certificate is good only where such lists speak of all reasons, and by none of them it
/// is revoked.
#[tactic(auto, using(crate::proofs::Telling::good_covered))]
pub fn good_is_covered()
    ensures { GoodIsCovered }
{}

/// A law: a certificate is good only where each such list, with its delta list, doesn't revoke it,
/// whatever the order of the lists.
#[tactic(auto, using(crate::proofs::Unlisted::good_unlisted))]
pub fn good_is_unlisted()
    ensures { GoodIsUnlisted }
{}
