//! What an authority records: the events of its history, the record that they give, and which event
//! may follow which (RFC 5280, 3.3, 4.1.2.2, 5.2.3, 5.2.4, 5.3).
#![tactic(auto)]

mod adding;
mod certificates;
mod decide;
mod event;
mod faults;
mod laws;
mod list;
mod record;
mod refusal;
mod state;

pub use event::{Event, Kind, ListKind, Reason, Revocation};
pub use laws::{
    lists_have_the_revoked, next_list_may_follow, nothing_is_ahead, serial_numbers_are_used_once,
};
pub use list::{Entry, NextList};
pub use record::{MOST_EVENTS, PushError, Record};
pub use refusal::{ListError, Refusal};
pub use state::{Base, Certificate, Change, Content, RevocationList};
