// The price of a solid.
ghost use Rattle.std.specs.Prelude.{◌≡◌, cond, ◌≤◌};
ghost use Rattle.std.specs.Float.Ieee.{lt};
ghost use Rattle.float.specs.Number.{zerof};
ghost use Rattle.shape.specs.Price.{less_for, solid_price};

use object::Extent;

// Two triangles less for a size of zero, of either sign.
fn less_for(x: f32) -> u32
    ensures { (result ≡ less_for x) × (result ≤ 2) }
{
    if x == 0.0 {
        return 2;
    }
    0
}

fn cylinder_price(height: f32) -> u32
    ensures { result ≡ cond (lt zerof height) 60 46 }
{
    if height > 0.0 {
        return 60;
    }
    46
}

pub fn solid_price(extent: Extent) -> u32
    ensures { result ≡ solid_price extent }
{
    match extent {
        Extent::Box(length, width, height) => {
            12 - (less_for(length) + less_for(width) + less_for(height))
        }
        Extent::Cylinder(_, height) => cylinder_price(height),
        Extent::Unsized => 0,
    }
}
