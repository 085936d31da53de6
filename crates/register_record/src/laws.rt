//! What holds of every record, whatever is recorded.
ghost use Rattle.register_record.specs.Laws.{AreSerials, CountsEvents, FinalStaysListed, IssuesWhatWasReserved, KeepsOctets, ListedNow, ListedOnce, ListsOnce, ListsTheRevoked, NextMayFollow, NothingAhead, NumbersRise, ReleasedInDelta, ReleasedIsOff, ReservesOnce, RevokedInDelta, SealsOnce, SealsReservedLists, StaysListed, TakenMayFollow};

/// Laws on serial numbers.
pub fn serial_numbers_are_used_once()
    ensures are_serials { AreSerials }
    ensures reserves_once { ReservesOnce }
    ensures seals_once { SealsOnce }
    ensures issues_what_was_reserved { IssuesWhatWasReserved }
    ensures keeps_octets { KeepsOctets }
{}

/// Laws on lists.
pub fn lists_have_the_revoked()
    ensures numbers_rise { NumbersRise }
    ensures lists_once { ListsOnce }
    ensures seals_reserved_lists { SealsReservedLists }
    ensures stays_listed { StaysListed }
    ensures final_stays_listed { FinalStaysListed }
    ensures lists_the_revoked { ListsTheRevoked }
    ensures listed_once { ListedOnce }
    ensures released_is_off { ReleasedIsOff }
    ensures revoked_in_delta { RevokedInDelta }
    ensures released_in_delta { ReleasedInDelta }
{}

/// Laws on the next list: when it may follow, and that it is reserved in the record that it was made of;
/// and when a list that was issued elsewhere may follow.
pub fn next_list_may_follow()
    ensures counts_events { CountsEvents }
    ensures next_may_follow { NextMayFollow }
    ensures taken_may_follow { TakenMayFollow }
    ensures listed_now { ListedNow }
{}

/// A law on decisions: none says of something that it happened after `now`.
pub fn nothing_is_ahead()
    ensures nothing_ahead { NothingAhead }
{}
