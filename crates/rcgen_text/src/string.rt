//! The texts of names and alternative names in their restricted character sets (X.680, 41).

mod ascii;
mod bmp;
mod sets;
mod text;
mod universal;

pub use ascii::{AsciiSet, AsciiString};
pub use bmp::BmpString;
pub use sets::{Ia5, Ia5String, Printable, PrintableString, Teletex, TeletexString};
pub use universal::UniversalString;
