ghost use Rattle.std.specs.Prelude.{◌≡◌, false};
ghost use Rattle.asn1_core.specs.declared.constraint.Constraint.TheVariants as constraint;

use crate::constraint::{
    Bounded, Constraint, Constraints, Extensible, PermittedAlphabet, Size, Value,
};

/// The numbers within bounds.
pub fn value_constraint(bounds: Bounded<i128>, extensible: bool) -> Constraint
    ensures { result ≡ constraint.Value (record { constraint = record { 0 = bounds }; extensible = extensible }) }
{
    Constraint::Value(Extensible::new(Value::new(bounds)).set_extensible(extensible))
}

/// As many as lie within bounds.
pub fn size_constraint(bounds: Bounded<usize>, extensible: bool) -> Constraint
    ensures { result ≡ constraint.Size (record { constraint = record { 0 = bounds }; extensible = extensible }) }
{
    Constraint::Size(Extensible::new(Size::new(bounds)).set_extensible(extensible))
}

/// These characters alone; it isn't extensible.
pub fn permitted_alphabet_constraint(characters: Vec<u32>) -> Constraint
    ensures { result ≡ constraint.PermittedAlphabet (record { constraint = characters.items; extensible = false }) }
{
    Constraint::PermittedAlphabet(Extensible::new(PermittedAlphabet::new(characters)))
}

/// The constraints of this list.
pub fn constraints(list: Vec<Constraint>) -> Constraints
    ensures { result ≡ list.items }
{
    Constraints { list }
}
