// The price of a sweep and of a round sweep.
ghost use Rattle.std.specs.Prelude.{◌≡◌, List, ◌+◌, ◌*◌, ◌≤◌, length};
ghost use Rattle.object.specs.declared.Section.{Section};
ghost use Rattle.object.specs.Object.{sweep, round_sweep};
ghost use Rattle.scene_field.specs.Layout.{most_sections, section_bytes};
ghost use Rattle.scene_field.specs.Fields.{sections_at};
ghost use Rattle.shape.specs.Price.{pair_price, offered};

use object::Section;
use scene_point::section_at;
use shape_section::{is_flat, is_widthless};

// Of two neighbouring sections: widthless goes first.
fn pair_price(a: Section, b: Section) -> u32
    ensures { (result ≡ pair_price a b) × (result ≤ 8) }
{
    if is_widthless(a) & is_widthless(b) {
        return 2;
    }
    if is_flat(a) & is_flat(b) {
        return 6;
    }
    8
}

// Of the sweep of the n sections from place `at` on. No struct for `s`, `at` and `n`: it would be taken
// apart here at once.
pub fn sweep_price(s: &[u8], at: usize, n: usize) -> u32
    requires { (n ≤ most_sections) × (at + section_bytes * n ≤ length s.now) }
    ensures { result ≡ offered (sweep (sections_at s.now n at)) }
{
    if n == 0 {
        return 0;
    }
    let mut a = section_at(s, at);
    let mut sum: u32 = 0;
    for k in 1..n {
        let b = section_at(s, at + 48 * k);
        sum += pair_price(a, b);
        a = b;
    }
    sum + 4
}

// Of a round sweep of n sections.
pub fn round_sweep_price(n: usize) -> u32
    requires { n ≤ most_sections }
    ensures { (ss : List Section) → length ss ≡ n → result ≡ offered (round_sweep ss) }
{
    if n == 0 {
        return 0;
    }
    32 * ((n - 1) as u32) + 28
}
