//! What holds of runs of the book.
ghost use Rattle.std.specs.Prelude.{◌≡◌, ◌<◌, ◌^◌, List, [], ◌∷◌, ◌++◌};
ghost use Rattle.std.specs.List.{AllByRecursion};
ghost use Rattle.rcgen_certificate.specs.Issuers.{IssuerView, key_of, view_of};
ghost use Rattle.authority.specs.Authorities.{fixed_of, issuer_of, limits_of, state_of};
ghost use Rattle.authority.specs.Book.{fixed, nothing, revoked_in, IsBook, Run, State, Step};
ghost use Rattle.authority.specs.CommandView.{CommandView};
ghost use Rattle.authority.specs.Laws.{IsOfIssuer, ListsTheRevoked};
ghost use Rattle.authority.specs.declared.authority.Authority.{Authority};
ghost use Rattle.authority.specs.declared.commands.Limits.{Limits};
ghost use Rattle.authority.specs.declared.commands.Reply.{Reply};

use rcgen_sign::SigningKey;

/// A law: a run after a run is a run.
pub fn runs_join<S: SigningKey>()
    ensures { (key : S) (issuer : IssuerView) (limits : Limits) (old mid new : State) (first second : List CommandView) (told then : List Reply)
        → Run (fixed issuer (S.fits key) (S.may_refuse key) limits) old first told mid
        → Run (fixed issuer (S.fits key) (S.may_refuse key) limits) mid second then new
        → Run (fixed issuer (S.fits key) (S.may_refuse key) limits) old (first ++ second) (told ++ then) new }
{}

/// A law: a run of some commands and others is a run of the first and one of the others, from where
/// the first came to.
pub fn runs_part<S: SigningKey>()
    ensures { (key : S) (issuer : IssuerView) (limits : Limits) (old new : State) (first second : List CommandView) (replies : List Reply)
        → Run (fixed issuer (S.fits key) (S.may_refuse key) limits) old (first ++ second) replies new
        → (told then : List Reply) × (mid : State) × (replies ≡ told ++ then)
        × Run (fixed issuer (S.fits key) (S.may_refuse key) limits) old first told mid
        × Run (fixed issuer (S.fits key) (S.may_refuse key) limits) mid second then new }
{}

/// A law: where an authority stops and one goes on from the same state, with an issuer of the same
/// view and key and the same limits, as `Authority::resume` does from what `Authority::into_parts`
/// handed out, the runs of both are one.
pub fn runs_go_on<S: SigningKey>()
    ensures { (stopped resumed : Authority S) (old new : State) (first second : List CommandView) (told then : List Reply)
        → view_of S.key (issuer_of resumed) ≡ view_of S.key (issuer_of stopped) → key_of (issuer_of resumed) ≡ key_of (issuer_of stopped)
        → limits_of resumed ≡ limits_of stopped → state_of resumed ≡ state_of stopped
        → Run (fixed_of S.key S.fits S.may_refuse stopped) old first told (state_of stopped)
        → Run (fixed_of S.key S.fits S.may_refuse resumed) (state_of resumed) second then new
        → Run (fixed_of S.key S.fits S.may_refuse stopped) old (first ++ second) (told ++ then) new }
{}

/// A law: a step is a run of one command.
pub fn step_is_run<S: SigningKey>()
    ensures { (key : S) (issuer : IssuerView) (limits : Limits) (old new : State) (command : CommandView) (reply : Reply)
        → Step (fixed issuer (S.fits key) (S.may_refuse key) limits) old command reply new
        → Run (fixed issuer (S.fits key) (S.may_refuse key) limits) old (command ∷ []) (reply ∷ []) new }
{}

/// A law: in an empty book no two entries are of one serial number, nor are they where a run comes
/// to. Of each authority `Authority::state_is_book` says it.
pub fn runs_keep_books<S: SigningKey>()
    ensures empty { IsBook nothing }
    ensures run { (key : S) (issuer : IssuerView) (limits : Limits) → limits.certificates < 2 ^ 64
        → (old new : State) (commands : List CommandView) (replies : List Reply)
        → IsBook old → Run (fixed issuer (S.fits key) (S.may_refuse key) limits) old commands replies new → IsBook new }
{}

/// A law: each list of a run is of exactly the serial numbers that were revoked before it, those
/// before the run first, in the order in which they were revoked, each once.
pub fn lists_are_of_the_revoked<S: SigningKey>()
    ensures { (key : S) (issuer : IssuerView) (limits : Limits) → limits.certificates < 2 ^ 64
        → (old new : State) (commands : List CommandView) (replies : List Reply)
        → IsBook old → Run (fixed issuer (S.fits key) (S.may_refuse key) limits) old commands replies new → ListsTheRevoked (revoked_in old) replies }
{}

/// A law: each certificate and each list of a run has the issuer's value, and one contents of the
/// extension that identifies its key.
pub fn issuer_is_one<S: SigningKey>()
    ensures { (key : S) (issuer : IssuerView) (limits : Limits) (old new : State) (commands : List CommandView) (replies : List Reply)
        → Run (fixed issuer (S.fits key) (S.may_refuse key) limits) old commands replies new → AllByRecursion (IsOfIssuer issuer) replies }
{}
