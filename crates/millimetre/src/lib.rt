// A coordinate in whole millimetres.

#![tactic(auto)]

ghost use Rattle.std.specs.Prelude.{◌≡◌, map, ◌≤◌, length};
ghost use Rattle.lists.specs.Each.{Each};
ghost use Rattle.lists.specs.Loops.{over};
ghost use Rattle.millimetre.specs.Millimetres.{millimetres};
ghost use Rattle.millimetre.specs.Contract.Reach.{InReach};

// The product is exact in an f64. One in its last place more carries a half past the middle and
// nothing else. Beside 1.5 * 2^52 the units stand in the last place, so the sum is rounded to a
// whole number, and the patterns differ by it.
pub fn millimetres(x: f32) -> i64
    requires { InReach x }
    ensures { result ≡ millimetres x }
{
    let product = x as f64 * 1000.0;
    let past = f64::from_bits(f64::to_bits(product) + 1);
    let placed = past + 6755399441055744.0;
    f64::to_bits(placed) as i64 - 0x4338_0000_0000_0000
}

// The millimetres of each coordinate, over the first part of the list.
pub fn fill(coordinates: &[f32], list: &mut [i64])
    requires coordinates_in_bounds { length coordinates.now ≤ length list.old }
    requires each { Each InReach coordinates.now }
    ensures { list.new ≡ over (map millimetres coordinates.now) list.old }
{
    for (i, x) in coordinates.iter().enumerate() {
        list[i] = millimetres(*x);
    }
}
