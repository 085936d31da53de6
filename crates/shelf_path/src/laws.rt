//! What a verdict says of the revocation lists, and of the anchor.
ghost use Rattle.shelf_path.specs.Laws.{AnchorIsLast, IssuersListsAreAsked, ListsAreOfIssuers, ValidIsGood};

/// A law: where revocation is asked a path is valid only if each of its certificates is good by lists of
/// issuers of which each is the anchor, a certificate of the path above it, or another one whose certificate
/// ends a valid path from the same anchor, through certificates of this path, may sign lists, and is itself
/// good by lists of such issuers (RFC 5280, 6.1.3 (a) (3) and 6.3.3 (f)). The anchor and each certificate
/// above are among these issuers. What good says of lists and entries is `path_revocation::good_is_covered`
/// and `path_revocation::good_is_unlisted`.
pub fn valid_is_good()
    ensures { ValidIsGood }
{}

/// A law: each list that is used for a certificate is one of those in the files, as one of an issuer that
/// is known, which it names and whose key may sign lists. That the issuer signed it is in
/// `path_revocation::good_is_covered`.
pub fn lists_are_of_issuers()
    ensures { ListsAreOfIssuers }
{}

/// A law: each list in the files that the certificate's issuer issued is used, with the key of each known
/// issuer that it names, unless there are more than are compared. So a list of the issuer is ignored under
/// no key of the path.
pub fn issuers_lists_are_asked()
    ensures { IssuersListsAreAsked }
{}

/// A law: what is asked has its anchor from the last block that is a certificate by its label. So no list in a
/// file before the anchor's makes another certificate the anchor.
pub fn anchor_is_last()
    ensures { AnchorIsLast }
{}
