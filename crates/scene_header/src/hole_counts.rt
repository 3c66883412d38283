// The counts of an outline's holes, added where they lie.
ghost use Rattle.std.specs.Prelude.{◌≡◌, ◌*◌, ◌≤◌};
ghost use Rattle.lists.specs.Loops.{sum_of};
ghost use Rattle.scene_field.specs.Fields.{counts_at};

use scene_field::u16_at;

// The sum of n counts from place i on.
pub fn sum_counts(s: &[u8], n: u16, i: usize) -> usize
    ensures { (result ≡ sum_of (λ k. k) (counts_at s.now n i)) × (result ≤ 65535 * n) }
{
    if s.len() <= i {
        return 0;
    }
    let mut sum = 0;
    for k in 0..n {
        sum += u16_at(s, i + 2 * (k as usize)) as usize;
    }
    sum
}
