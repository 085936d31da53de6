//! The events of an authority's record as the rows of one table of a store.
#![tactic(auto)]

mod error;
mod reading;
mod storing;
mod writing;

pub use error::{ReadError, RowError};
pub use reading::read_event;
pub use storing::{TABLE, write_row};
pub use writing::row_of;
