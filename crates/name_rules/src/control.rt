//! Control characters in names.
ghost use Rattle.std.specs.Prelude.{◌≡◌};
ghost use Rattle.std.specs.List.{list_any};
ghost use Rattle.name_rules.specs.Controls.{has_control, is_control};

fn is_control(c: u8) -> bool
    ensures { result ≡ is_control c }
{
    c < 32 || c == 127
}

/// Whether the text has a control character of ASCII.
#[tactic(auto, unfolding(crate::specs::Controls::has_control))]
pub fn has_control(text: &[u8]) -> bool
    ensures { result ≡ has_control text.now }
{
    text.iter().any(|c| is_control(*c))
}
