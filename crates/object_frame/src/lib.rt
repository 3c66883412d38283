// The frame of a solid.

#![tactic(auto)]

ghost use Rattle.std.specs.Prelude.{◌≡◌};
ghost use Rattle.object.specs.Object.{frame};

use coords_vector::Vector;
use object::Orientation;

// An offset in the solid's own frame, turned into the network's: `orient`, in f64, by the scene's
// sines and cosines. u, v and z are no Vector, which lies along the network's axes.
pub fn frame(turn: Orientation, u: f32, v: f32, z: f32) -> Vector
    ensures { result ≡ frame turn u v z }
{
    let heading = turn.heading;
    let pitch = turn.pitch;
    let roll = turn.roll;
    let u0 = std::num::f32_to_f64_with_nan(u);
    let v0 = std::num::f32_to_f64_with_nan(v);
    let z0 = std::num::f32_to_f64_with_nan(z);
    let v1 = v0 * roll.cos - z0 * roll.sin;
    let z1 = v0 * roll.sin + z0 * roll.cos;
    let u2 = u0 * pitch.cos + z1 * pitch.sin;
    let z2 = -u0 * pitch.sin + z1 * pitch.cos;
    let u3 = u2 * heading.cos - v1 * heading.sin;
    let v3 = u2 * heading.sin + v1 * heading.cos;
    Vector {
        x: float_narrow::narrow(u3),
        y: float_narrow::narrow(v3),
        z: float_narrow::narrow(z2),
    }
}
