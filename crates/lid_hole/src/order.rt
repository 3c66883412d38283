// The order in which holes are joined.
ghost use Rattle.std.specs.Prelude.{◌≡◌, ◌+◌, ◌-◌, ◌<◌, ◌≤◌, ◌^◌, length, take};
ghost use Rattle.lid.specs.Contract.Steps.{insert_at};
ghost use Rattle.lid_hole.specs.Contract.Order.{insert_by, order_step, order_of, HolesOrdered};

use lid_flat::coordinate;
use lid_splice::insert;

// How many holes of an order stand before hole g: those up to the first that lies further left, or all.
fn find_place(rights: &[f32], order: &[u32], g: u32) -> usize
    ensures { (insert_at result g order.now ≡ insert_by rights.now g order.now) × (result ≤ length order.now) }
{
    let right = coordinate(rights, g as usize);
    for (i, h) in order.iter().enumerate() {
        if float_sign::total_less(coordinate(rights, *h as usize), right) {
            return i;
        }
    }
    order.len()
}

// The order is a lent slice with its count, since nothing is allocated.
// Puts hole g among the c holes of an order, unless it is skipped. The result is how many they then are.
fn order_hole(rights: &[f32], small: &[bool], order: &mut [u32], c: usize, g: usize) -> usize
    requires c_in_bounds { c < length order.old }
    requires g_in_bounds { (g < length small.now) × (g < 2 ^ 32) }
    ensures holes_ordered { HolesOrdered (order_step rights.now small.now g (take c order.old)) order result }
    ensures lower_bound { (c ≤ result) × (result ≤ c + 1) }
{
    if small[g] {
        return c;
    }
    let v = g as u32;
    let p = find_place(rights, &order[..c], v);
    let e = c + 1;
    insert(&mut order[..e], p, v);
    e
}

// Two slices for what is known of the holes, since `order_of` of specs/, which may not change, takes two lists.
// The holes that are not skipped, in joining order. The result is how many they are.
pub fn order_holes(rights: &[f32], small: &[bool], order: &mut [u32]) -> usize
    requires small_in_bounds { length small.now ≤ length order.old }
    requires small_len_bound { length small.now < 2 ^ 32 }
    ensures { HolesOrdered (order_of rights.now small.now) order result }
{
    let mut c = 0;
    for g in 0..small.len() {
        c = order_hole(rights, small, order, c, g);
    }
    c
}
