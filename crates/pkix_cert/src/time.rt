ghost use Rattle.std.specs.Prelude.{◌≡◌, None, refl};
ghost use Rattle.std.proofs.Common.{rules};
ghost use Rattle.pkix_cert.specs.Times.{moment_of, time, validity, validity_fields};

use asn1_core::{GeneralizedTime, Tag, TryClone, UtcTime};
use der_tree::{
    DecodeError, DerType, EncodeError, Fields, Form, Sequence, Tree, Trees, Window, put, required,
};
use jiff::civil::DateTime;
use std::alloc::Global;

/// A time in either form. A certificate's years from 1950 to 2049 are to be written as UTCTime and
/// all others as GeneralizedTime (RFC 5280, 4.1.2.5); any GeneralizedTime is read and written here.
#[derive(Clone, Copy, Debug, PartialEq, Eq, PartialOrd, Ord, Hash)]
pub enum Time {
    /// UTCTime, of the years 1950 to 2049.
    Utc(UtcTime),
    /// GeneralizedTime, of any year from 0 to 9999.
    General(GeneralizedTime),
}

impl Time {
    /// The civil time in UTC, without a fraction of a second where the form has none.
    pub fn moment(&self) -> DateTime
        ensures { result ≡ moment_of self.now }
    {
        match self {
            Time::Utc(time) => time.at,
            Time::General(time) => time.at,
        }
    }
}

impl TryClone for Time {
    ghost copies_are_equal = { Prim.search rules };
}

impl Form for Time {
    ghost codec = { time };
}

impl DerType for Time {
    ghost TAG = { None };

    ghost tag_is = { refl };

    const TAG: Option<Tag> = None;

    fn starts(tag: Tag) -> bool {
        UtcTime::starts(tag) || GeneralizedTime::starts(tag)
    }

    fn to_tree(&self, alloc: Global) -> Result<Tree, EncodeError> {
        match self {
            Time::Utc(time) => time.to_tree(alloc),
            Time::General(time) => time.to_tree(alloc),
        }
    }

    fn from_tree(alloc: Global, window: Window<'_>) -> Result<Self, DecodeError> {
        if UtcTime::starts(window.tag()) {
            Ok(Time::Utc(UtcTime::from_tree(alloc, window)?))
        } else {
            Ok(Time::General(GeneralizedTime::from_tree(alloc, window)?))
        }
    }
}

/// When the certificate holds, both ends included (RFC 5280, 4.1.2.5).
#[derive(Clone, Copy, Debug, PartialEq, Eq, PartialOrd, Ord, Hash)]
pub struct Validity {
    pub not_before: Time,
    pub not_after: Time,
}

impl TryClone for Validity {
    ghost copies_are_equal = { Prim.search rules };
}

impl Form for Validity {
    ghost codec = { validity };
}

#[tactic(auto, unfolding(crate::specs::Times::validity_fields))]
impl Sequence for Validity {
    ghost layout = { validity_fields };

    ghost is_sequence = { refl };

    fn put_fields(&self, alloc: Global, fields: &mut Trees) -> Result<(), EncodeError> {
        put(alloc, fields, &self.not_before)?;
        put(alloc, fields, &self.not_after)?;
        Ok(())
    }

    fn read_fields(alloc: Global, fields: &mut Fields<'_>) -> Result<Self, DecodeError> {
        Ok(Validity {
            not_before: required(alloc, fields)?,
            not_after: required(alloc, fields)?,
        })
    }
}
