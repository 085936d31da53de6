//! Under what certificates are looked for.
use asn1_core::OctetString;

/// Whether any certificate of the subject is looked for, else that with this identifier of its key, or without one.
#[derive(PartialEq, Eq, PartialOrd, Ord)]
pub(crate) struct IndexKey {
    pub(crate) is_any: bool,
    pub(crate) subject: OctetString,
    pub(crate) key: Option<OctetString>,
}

impl Drop for IndexKey {
    fn drop(self) {
        let IndexKey {
            is_any: _,
            subject: _,
            key: _,
        } = self;
    }
}
