// The sections of a sweep, told apart as `sweep` has it.

#![tactic(auto)]

pub mod ends;

ghost use Rattle.std.specs.Prelude.{◌≡◌};
ghost use Rattle.shape.specs.Shapes.{is_widthless_section, is_flat_section};

use object::Section;

// `thin` of `sweep`.
pub fn is_widthless(s: Section) -> bool
    ensures { result ≡ is_widthless_section s }
{
    s.left == s.right
}

pub fn is_flat(s: Section) -> bool
    ensures { result ≡ is_flat_section s }
{
    (s.left.base == s.left.top) & (s.right.base == s.right.top)
}
