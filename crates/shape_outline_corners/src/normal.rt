// The plane of a closed outline's lid, `lid_normal` of object_mesh.rs, and which way a ring runs about it.
// Corners are read where they lie in the scene's bytes, each once.
ghost use Rattle.std.specs.Prelude.{◌≡◌};
ghost use Rattle.lid_plane.specs.Plane.{area_normal, lid_normal, about};
ghost use Rattle.shape_outline_corners.specs.Contract.Outlines.{HoldsCorners, HoldsPoints, corners_of, points_of};

use crate::Row;
use coords_vector::Vector;
use lid_plane::normal::{area_normal_step, rise_step};
use scene_point::{corner_at, point_at};

impl Row<'_> {
    // Twice the vector area of points, from the first.
    fn area_normal(self) -> Vector
        requires { HoldsPoints self }
        ensures { result ≡ area_normal (points_of self.entry) }
    {
        if self.n == 0 {
            return Vector::ZERO;
        }
        let first = point_at(self.s, self.at);
        let mut p = first;
        let mut sum = Vector::ZERO;
        for k in 0..self.n {
            let q = point_at(self.s, self.next_place(k));
            sum = area_normal_step(first, p, q, sum);
            p = q;
        }
        sum
    }

    // The normal of the lid over corners.
    pub fn lid_normal(self) -> Vector
        requires { HoldsCorners self }
        ensures { result ≡ lid_normal (corners_of self.entry) }
    {
        if self.n == 0 {
            return lid_plane::normal::lid_normal_from(Vector::ZERO, Vector::ZERO);
        }
        let mut a = corner_at(self.s, self.at);
        let first = a.top;
        let mut area = Vector::ZERO;
        let mut rise = Vector::ZERO;
        for k in 0..self.n {
            let b = corner_at(self.s, self.next_place(k));
            area = area_normal_step(first, a.top, b.top, area);
            rise = rise_step(rise, a);
            a = b;
        }
        lid_plane::normal::lid_normal_from(area, rise)
    }

    // The lid's normal or its reverse, whichever the bases of corners run anticlockwise about.
    pub fn about(self, lid: Vector) -> Vector
        requires { HoldsCorners self }
        ensures { result ≡ about (corners_of self.entry) lid }
    {
        lid_plane::axes::about_from(self.area_normal(), lid)
    }
}
