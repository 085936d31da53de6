//! Sets of reasons (RFC 5280, 4.2.1.13).
ghost use Rattle.std.specs.Prelude.{◌≡◌};
ghost use Rattle.path_revocation.specs.Reasons.{all_reasons, are_all, are_within, flagged, intersection, no_reasons, reasons_in, union};

use pkix_cert::ReasonFlags;

/// The reasons for which a certificate is listed, each or not.
#[derive(Clone, Copy)]
pub(crate) struct Reasons {
    pub(crate) key_compromise: bool,
    pub(crate) ca_compromise: bool,
    pub(crate) affiliation_changed: bool,
    pub(crate) superseded: bool,
    pub(crate) cessation_of_operation: bool,
    pub(crate) certificate_hold: bool,
    pub(crate) privilege_withdrawn: bool,
    pub(crate) aa_compromise: bool,
}

fn all_reasons() -> Reasons
    ensures { result ≡ all_reasons }
{
    Reasons {
        key_compromise: true,
        ca_compromise: true,
        affiliation_changed: true,
        superseded: true,
        cessation_of_operation: true,
        certificate_hold: true,
        privilege_withdrawn: true,
        aa_compromise: true,
    }
}

fn flagged(flags: &ReasonFlags) -> Reasons
    ensures { result ≡ flagged flags.now }
{
    Reasons {
        key_compromise: flags.bit(1),
        ca_compromise: flags.bit(2),
        affiliation_changed: flags.bit(3),
        superseded: flags.bit(4),
        cessation_of_operation: flags.bit(5),
        certificate_hold: flags.bit(6),
        privilege_withdrawn: flags.bit(7),
        aa_compromise: flags.bit(8),
    }
}

impl Reasons {
    /// The empty set.
    pub(crate) fn none() -> Reasons
        ensures { result ≡ no_reasons }
    {
        Reasons {
            key_compromise: false,
            ca_compromise: false,
            affiliation_changed: false,
            superseded: false,
            cessation_of_operation: false,
            certificate_hold: false,
            privilege_withdrawn: false,
            aa_compromise: false,
        }
    }

    /// Those that are flagged; all, where nothing is said.
    #[tactic(auto, unfolding(crate::specs::Reasons::reasons_in))]
    pub(crate) fn of(flags: &Option<ReasonFlags>) -> Reasons
        ensures { result ≡ reasons_in flags.now }
    {
        match flags {
            None => all_reasons(),
            Some(flags) => flagged(flags),
        }
    }

    /// Those that both have.
    #[tactic(auto, unfolding(crate::specs::Reasons::intersection))]
    pub(crate) fn intersection(self, other: Reasons) -> Reasons
        ensures { result ≡ intersection self other }
    {
        Reasons {
            key_compromise: self.key_compromise & other.key_compromise,
            ca_compromise: self.ca_compromise & other.ca_compromise,
            affiliation_changed: self.affiliation_changed & other.affiliation_changed,
            superseded: self.superseded & other.superseded,
            cessation_of_operation: self.cessation_of_operation & other.cessation_of_operation,
            certificate_hold: self.certificate_hold & other.certificate_hold,
            privilege_withdrawn: self.privilege_withdrawn & other.privilege_withdrawn,
            aa_compromise: self.aa_compromise & other.aa_compromise,
        }
    }

    /// Those that one of the two has.
    #[tactic(auto, unfolding(crate::specs::Reasons::union))]
    pub(crate) fn union(self, other: Reasons) -> Reasons
        ensures { result ≡ union self other }
    {
        Reasons {
            key_compromise: self.key_compromise | other.key_compromise,
            ca_compromise: self.ca_compromise | other.ca_compromise,
            affiliation_changed: self.affiliation_changed | other.affiliation_changed,
            superseded: self.superseded | other.superseded,
            cessation_of_operation: self.cessation_of_operation | other.cessation_of_operation,
            certificate_hold: self.certificate_hold | other.certificate_hold,
            privilege_withdrawn: self.privilege_withdrawn | other.privilege_withdrawn,
            aa_compromise: self.aa_compromise | other.aa_compromise,
        }
    }

    /// Whether the other has each of them.
    #[tactic(auto, unfolding(crate::specs::Reasons::are_within))]
    pub(crate) fn are_within(self, other: Reasons) -> bool
        ensures { result ≡ are_within self other }
    {
        (!self.key_compromise || other.key_compromise)
            && (!self.ca_compromise || other.ca_compromise)
            && (!self.affiliation_changed || other.affiliation_changed)
            && (!self.superseded || other.superseded)
            && (!self.cessation_of_operation || other.cessation_of_operation)
            && (!self.certificate_hold || other.certificate_hold)
            && (!self.privilege_withdrawn || other.privilege_withdrawn)
            && (!self.aa_compromise || other.aa_compromise)
    }

    /// Whether it has all reasons.
    pub(crate) fn are_all(self) -> bool
        ensures { result ≡ are_all self }
    {
        all_reasons().are_within(self)
    }
}
