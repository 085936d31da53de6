//! Object identifiers, integers, bit strings, octet strings, texts, times, and the contents octets of
//! each (X.690); buffers that count what is put into them.
#![tactic(auto)]

mod base128;
mod bit_string;
pub mod constraint;
mod error;
mod integer;
mod object_identifier;
mod octet_string;
mod oid;
mod out;
mod sizes;
mod steps;
mod tag;
mod text;
mod time;
mod try_clone;

pub use base128::{base128_len, put_base128};
pub use bit_string::BitString;
pub use constraint::makers::{
    constraints, permitted_alphabet_constraint, size_constraint, value_constraint,
};
pub use constraint::{Bounded, Constraint, Extensible, PermittedAlphabet, Size, Value};
pub use error::OutOfMemory;
pub use integer::{Integer, u64_from_contents, u64_to_contents};
pub use object_identifier::{ObjectIdentifier, OidFault, valid_arcs};
pub use octet_string::OctetString;
pub use oid::Oid;
pub use out::Out;
pub use sizes::Sizes;
pub use steps::Steps;
pub use tag::{Class, Tag};
pub use text::{
    BmpString, CharacterString, GeneralString, GraphicString, Ia5String, NumericString,
    PrintableString, StringType, TeletexString, TextFault, UniversalString, Utf8String,
    VisibleString,
};
pub use time::{
    GeneralizedTime, OffsetDateTime, UtcTime, has_utc_exactly, has_utc_time_year, whole_seconds,
    written_is_carried, written_once,
};
pub use try_clone::{TryClone, copied};
