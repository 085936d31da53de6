//! Names, of which at most one of `common_name` and `subject` may be there.
ghost use Rattle.std.specs.Prelude.{◌≡◌, IfOk};
ghost use Rattle.toml_format.specs.Issuer.{name_values, one_name, given};
ghost use Rattle.toml_format.specs.Tables.{fields};

use crate::attribute::Attribute;
use crate::entries::Entries;
use crate::list::List;
use crate::reason::Reason;
use crate::table_reader::{FromTable, TableReader, read_fields};
use crate::text::Text;
use std::alloc::{AllocError, Global};

/// A name, as `common_name` or `subject` says it; both together are `Reason::WrongValue`.
#[derive(Drop)]
pub enum Name {
    /// Neither key is there: the one common name `rcgen self signed cert`.
    Default,
    /// A single common name, as UTF8String.
    CommonName(Text),
    /// The attributes of the name, in order; none is the empty name.
    Subject(List<Attribute>),
}

impl FromTable for Name {
    type Keys = (((), Option<Text>), Option<List<Attribute>>);

    ghost keys = { name_values };

    ghost of_keys = { one_name };

    #[tactic(auto, unfolding(crate::specs::Issuer::name_values))]
    fn keys<'a>(
        alloc: Global,
        entries: Entries<'a>,
    ) -> Result<TableReader<'a, Self::Keys>, AllocError> {
        let reader = TableReader::new(entries)
            .optional(alloc, "common_name")?
            .optional(alloc, "subject")?;
        Ok(reader)
    }

    #[tactic(auto, unfolding(crate::specs::Issuer::one_name))]
    fn of_keys(values: Self::Keys) -> Result<Name, Reason> {
        match values {
            (((), Some(_)), Some(_)) => Err(Reason::WrongValue),
            (((), Some(common_name)), None) => Ok(Name::CommonName(common_name)),
            (((), None), Some(subject)) => Ok(Name::Subject(subject)),
            (((), None), None) => Ok(Name::Default),
        }
    }
}

/// A name that must be said: neither key is `Reason::MissingKey`.
#[derive(Drop)]
pub struct GivenName {
    /// The name, never `Name::Default`.
    pub name: Name,
}

impl FromTable for GivenName {
    type Keys = Name;

    ghost keys = { fields name_values one_name };

    ghost of_keys = { given };

    fn keys<'a>(
        alloc: Global,
        entries: Entries<'a>,
    ) -> Result<TableReader<'a, Self::Keys>, AllocError> {
        read_fields(alloc, entries)
    }

    #[tactic(auto, unfolding(crate::specs::Issuer::given))]
    fn of_keys(values: Name) -> Result<GivenName, Reason> {
        match values {
            Name::Default => Err(Reason::MissingKey),
            name => Ok(GivenName { name }),
        }
    }
}
