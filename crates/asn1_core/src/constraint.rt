//! Constraints on values (X.680, 51).
ghost use Rattle.std.specs.Prelude.{◌≡◌, Some, None, false};
ghost use Rattle.asn1_core.specs.Constraints.{is_inside};
ghost use Rattle.asn1_core.specs.declared.constraint.Bounded.TheVariants as bounded;

pub(crate) mod makers;

use std::marker::Model;

/// Bounds on values (X.680, 51.2 and 51.4), both ends inside.
#[derive(Clone, Copy, Debug, PartialEq, Eq)]
pub enum Bounded<T> {
    /// One value alone.
    Single(T),
    /// The values from a start to an end, where there are such.
    Range { start: Option<T>, end: Option<T> },
    /// All values.
    None,
}

impl<T> Bounded<T> {
    /// From a start to an end.
    pub fn const_new(start: T, end: T) -> Bounded<T>
        ensures { result ≡ bounded.Range (Some start) (Some end) }
    {
        Bounded::Range {
            start: Some(start),
            end: Some(end),
        }
    }

    /// From a start on.
    pub fn start_from(start: T) -> Bounded<T>
        ensures { result ≡ bounded.Range (Some start) None }
    {
        Bounded::Range {
            start: Some(start),
            end: None,
        }
    }

    /// Up to an end.
    pub fn up_to(end: T) -> Bounded<T>
        ensures { result ≡ bounded.Range None (Some end) }
    {
        Bounded::Range {
            start: None,
            end: Some(end),
        }
    }
}

impl<T: PartialOrd> Bounded<T> {
    /// Whether the value lies within the bounds.
    pub fn contains(&self, value: &T) -> bool
        ensures { result ≡ is_inside T.eq T.partial_cmp self.now value.now }
    {
        match self {
            Bounded::Single(only) => *only == *value,
            Bounded::Range { start, end } => {
                start.as_ref().is_none_or(|start| *start <= *value)
                    && end.as_ref().is_none_or(|end| *value <= *end)
            }
            Bounded::None => true,
        }
    }
}

/// Which numbers a type has (X.680, 51.4).
#[derive(Clone, Copy, Debug, PartialEq, Eq)]
pub struct Value(pub Bounded<i128>);

impl Value {
    /// The numbers within these bounds.
    pub fn new(bounds: Bounded<i128>) -> Value
        ensures { result.0 ≡ bounds }
    {
        Value(bounds)
    }
}

/// How many characters, octets, bits or elements a value has (X.680, 51.5).
#[derive(Clone, Copy, Debug, PartialEq, Eq)]
pub struct Size(pub Bounded<usize>);

impl Size {
    /// As many as lie within these bounds.
    pub fn new(bounds: Bounded<usize>) -> Size
        ensures { result.0 ≡ bounds }
    {
        Size(bounds)
    }
}

/// Which characters a text has, by their codes (X.680, 51.7).
#[derive(Debug)]
pub struct PermittedAlphabet {
    characters: Vec<u32>,
}

impl Model for PermittedAlphabet {
    ghost use Rattle.std.specs.Prelude.{ℕ, List};

    ghost Value = { List ℕ };

    ghost view = { λ s. s.characters.items };
}

impl Drop for PermittedAlphabet {
    fn drop(self) {
        let PermittedAlphabet { characters: _ } = self;
    }
}

impl PermittedAlphabet {
    /// These characters.
    pub fn new(characters: Vec<u32>) -> PermittedAlphabet
        ensures { result ≡ characters.items }
    {
        PermittedAlphabet { characters }
    }

    /// The characters' codes.
    pub fn as_slice(&self) -> &[u32]
        ensures { result.now ≡ self.now }
    {
        self.characters.as_slice()
    }
}

/// A constraint, and whether values beyond it may come with a later version of the type (X.680,
/// 52).
#[derive(Clone, Copy, Debug, PartialEq, Eq, Drop)]
pub struct Extensible<T> {
    pub constraint: T,
    pub extensible: bool,
}

impl<T> Extensible<T> {
    /// The constraint, which isn't extensible.
    pub fn new(constraint: T) -> Extensible<T>
        ensures { result ≡ record { constraint = constraint; extensible = false } }
    {
        Extensible {
            constraint,
            extensible: false,
        }
    }

    /// The same constraint, extensible or not.
    pub fn set_extensible(self, extensible: bool) -> Self
        ensures { result ≡ record { constraint = self.constraint; extensible = extensible } }
    {
        let Extensible {
            constraint,
            extensible: _,
        } = self;
        Extensible {
            constraint,
            extensible,
        }
    }
}

/// A constraint of one of three kinds.
#[derive(Debug, Drop)]
pub enum Constraint {
    /// On numbers.
    Value(Extensible<Value>),
    /// On how many there are.
    Size(Extensible<Size>),
    /// On characters.
    PermittedAlphabet(Extensible<PermittedAlphabet>),
}

/// The constraints of a type, in order.
#[derive(Debug)]
pub struct Constraints {
    list: Vec<Constraint>,
}

impl Model for Constraints {
    ghost use Rattle.std.specs.Prelude.{List};
    ghost use Rattle.asn1_core.specs.declared.constraint.Constraint.{Constraint};

    ghost Value = { List Constraint };

    ghost view = { λ s. s.list.items };
}

impl Drop for Constraints {
    fn drop(self) {
        let Constraints { list: _ } = self;
    }
}

impl Constraints {
    /// The constraints in order.
    pub fn as_slice(&self) -> &[Constraint]
        ensures { result.now ≡ self.now }
    {
        self.list.as_slice()
    }
}
