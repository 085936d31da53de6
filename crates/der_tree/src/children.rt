ghost use Rattle.std.specs.Prelude.{◌≡◌};

use crate::fields::Fields;
use crate::window::Window;
use std::marker::Model;

/// The windows onto the elements within an element, in order.
#[derive(Debug, Drop)]
pub struct Children<'a> {
    left: Fields<'a>,
}

impl<'a> Model for Children<'a> {
    ghost use Rattle.std.specs.Prelude.{List};
    ghost use Rattle.der_tree.specs.Element.{Element};

    ghost Value = { List Element };

    ghost view = { λ s. s.left };
}

impl<'a> Children<'a> {
    pub(crate) fn of(left: Fields<'a>) -> Children<'a>
        ensures { result ≡ left.entry }
    {
        Children { left }
    }
}

impl<'a> Iterator for Children<'a> {
    ghost use Rattle.std.specs.Iterator.{YieldsFirstBy, item_count};
    ghost use Rattle.der_tree.specs.Windows.{seen, seen_as};

    type Item = Window<'a>;

    ghost next_gives = { YieldsFirstBy seen seen_as };

    ghost remaining = { item_count seen_as };

    fn next(&mut self) -> Option<Window<'a>> {
        let (window, rest) = self.left.first()?;
        self.left = rest;
        Some(window)
    }
}
