//! Why no attribute certificate is issued.
ghost use Rattle.std.specs.Prelude.{◌≡◌, true, IfOk};
ghost use Rattle.attr_issue.specs.AttributeCauses.{attribute_error, attribute_origin};
ghost use Rattle.attr_issue.specs.contracts.error.AttrErrorPartialEq.TheImpl.{ghosts as equality};
ghost use Rattle.attr_issue.specs.declared.error.AttrError.TheVariants.{OutOfMemory};

use std::alloc::{AllocError, Global};
use thiserror::Error;

/// Why no attribute certificate is issued.
#[derive(Clone, Debug, PartialEq, Eq, Drop, Error)]
pub enum AttrError {
    /// There is no attribute; there has to be one at least (RFC 5755, 4.2.7).
    #[error("Attribute certificate must include an attribute")]
    NoAttributes,
    /// Two attributes have the same type; each has to have its own (RFC 5755, 4.2.7).
    #[error("Repeated attribute type")]
    RepeatedAttribute,
    /// `Time`, `InvalidObjectIdentifier`, `InvalidAttributeValues`, or `RemoteKeyError` of the
    /// issuer's key. Never `OutOfMemory`.
    #[error("{0}")]
    Refused(rcgen_text::Error),
    /// No memory was left.
    #[error("Out of memory")]
    OutOfMemory,
}

// no `TryClone`: a copied `String` may have another capacity
impl AttrError {
    /// The same error, its text copied.
    pub fn try_clone(&self, alloc: Global) -> Result<AttrError, asn1_core::OutOfMemory>
        ensures origin { IfOk result (λ copy. attribute_origin copy ≡ attribute_origin self.now) }
        ensures equal { IfOk result (λ copy. equality.eq copy self.now ≡ true) }
    {
        match self {
            AttrError::NoAttributes => Ok(AttrError::NoAttributes),
            AttrError::RepeatedAttribute => Ok(AttrError::RepeatedAttribute),
            AttrError::Refused(error) => Ok(AttrError::Refused(error.try_clone(alloc)?)),
            AttrError::OutOfMemory => Ok(AttrError::OutOfMemory),
        }
    }
}

impl From<AllocError> for AttrError {
    ghost from_gives = { λ _ e. e ≡ OutOfMemory };

    fn from(_e: AllocError) -> AttrError {
        AttrError::OutOfMemory
    }
}

impl From<rcgen_text::Error> for AttrError {
    ghost from_gives = { λ e attr. attr ≡ attribute_error e };

    fn from(error: rcgen_text::Error) -> AttrError {
        match error {
            rcgen_text::Error::OutOfMemory => AttrError::OutOfMemory,
            error => AttrError::Refused(error),
        }
    }
}
