//! Whether the subject of an order is an authority.
ghost use Rattle.std.specs.Prelude.{◌≡◌, IfOk};
ghost use Rattle.toml.specs.Data.{as_str};
ghost use Rattle.toml.specs.View.{view};
ghost use Rattle.toml_format.specs.Values.{whole};
ghost use Rattle.shelf_profile.specs.Ca.{ca, is_false};

use rcgen_text::IsCa;
use std::alloc::{AllocError, Global};
use std::marker::Model;
use toml::Value;
use toml_format::{FromValue, Reason};

/// Whether the subject of an order is an authority: by a word of orders, or as profiles have it.
pub struct OrderCa {
    ca: IsCa,
}

impl Model for OrderCa {
    ghost use Rattle.rcgen_text.specs.declared.basic_constraints.IsCa.{IsCa};

    ghost Value = { IsCa };

    ghost view = { λ c. c.ca };
}

impl Drop for OrderCa {
    fn drop(self) {
        let OrderCa { ca: _ } = self;
    }
}

impl OrderCa {
    /// A default.
    pub(crate) fn new(ca: IsCa) -> OrderCa
        ensures { result ≡ ca }
    {
        OrderCa { ca }
    }

    /// Whether it is one.
    pub(crate) fn into_is_ca(self) -> IsCa
        ensures { result ≡ self }
    {
        let OrderCa { ca } = self;
        ca
    }
}

/// Whether a value is the text `false`.
fn is_false(value: &Value) -> bool
    ensures { result ≡ is_false (as_str (view value.now)) }
{
    match value.as_str() {
        Some(text) => match text {
            "false" => true,
            _ => false,
        },
        None => false,
    }
}

impl FromValue for OrderCa {
    ghost format = { whole ca };

    #[tactic(auto, unfolding(crate::specs::Ca::ca))]
    fn from_value(alloc: Global, value: &Value) -> Result<Result<OrderCa, Reason>, AllocError> {
        if is_false(value) {
            return Ok(Ok(OrderCa::new(IsCa::ExplicitNoCa)));
        }
        match IsCa::from_value(alloc, value)? {
            Ok(ca) => Ok(Ok(OrderCa::new(ca))),
            Err(reason) => Ok(Err(reason)),
        }
    }
}
