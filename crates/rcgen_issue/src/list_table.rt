//! The table of lists can be met.
ghost use Rattle.std.specs.Prelude.{◌≡◌, None, map};
ghost use Rattle.std.specs.List.{AllByRecursion};
ghost use Rattle.std.specs.Option.{IfSome, option_map};
ghost use Rattle.asn1_core.specs.Moment.{instant};
ghost use Rattle.rcgen_certificate.specs.Issuers.{IssuerView};
ghost use Rattle.rcgen_issue.specs.CrlView.{crl_view, revoked_view};
ghost use Rattle.rcgen_issue.specs.ListTable.{HasCivilTime, HasCivilTimes, CrlExists};
ghost use Rattle.rcgen_issue.specs.Lists.{first_crl_cause};

use crate::crl::{CertificateRevocationListParams, RevokedCertParams};
use asn1_core::{OffsetDateTime, has_utc_exactly};

/// A law: a date that is given has a civil time in UTC where it has a form there.
fn date_is_civil(given: Option<OffsetDateTime>)
    ensures { IfSome (option_map instant given) HasCivilTime }
{
    if let Some(date) = given {
        has_utc_exactly(&date);
    }
}

/// A law: so has each time of an entry.
fn entry_is_civil(entry: &RevokedCertParams)
    ensures { HasCivilTimes (revoked_view entry.now) }
{
    has_utc_exactly(&entry.revocation_time);
    date_is_civil(entry.invalidity_date);
}

/// A law: so has each time of each entry.
#[tactic(auto, using(crate::proofs::Loops::taken))]
fn entries_are_civil(entries: &[RevokedCertParams])
    ensures { AllByRecursion HasCivilTimes (map revoked_view entries.now) }
{
    for entry in entries {
        entry_is_civil(entry);
    }
}

/// A law: where there is no cause against it, what the table of lists asks for exists, whoever
/// issues, unless a part of it or its form would be 2^64 octets or more.
pub fn crl_exists(params: &CertificateRevocationListParams)
    ensures { (issuer : IssuerView) → first_crl_cause (crl_view params.now) issuer ≡ None → CrlExists (crl_view params.now) issuer }
{
    has_utc_exactly(&params.this_update);
    has_utc_exactly(&params.next_update);
    entries_are_civil(&params.revoked_certs);
}
