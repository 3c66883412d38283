// The sines and cosines of a prism's sixteen ring points, at k * TAU / 16, and of its sixteen side
// directions, half a step further.

#![tactic(auto)]

ghost use Rattle.std.specs.Prelude.{◌≡◌};
ghost use Rattle.angle_circle.specs.Circle.{angle, side_angle};
ghost use Rattle.angle_circle.specs.Contract.Circle.{sin_cos};

// The sines and the cosines of sixteen angles, in two lists as the definition `sin_cos` has them.
#[derive(Clone, Copy)]
pub struct SinCos {
    pub sin: [f32; 16],
    pub cos: [f32; 16],
}

const RING_SINES: [f32; 16] = [
    0.0,
    0.38268346,
    0.70710677,
    0.9238795,
    1.0,
    0.9238795,
    0.70710677,
    0.38268328,
    -0.00000008742278,
    -0.38268343,
    -0.7071069,
    -0.9238797,
    -1.0,
    -0.92387944,
    -0.70710653,
    -0.38268343,
];

const RING_COSINES: [f32; 16] = [
    1.0,
    0.9238795,
    0.70710677,
    0.38268343,
    -0.00000004371139,
    -0.38268352,
    -0.70710677,
    -0.9238796,
    -1.0,
    -0.9238795,
    -0.70710665,
    -0.38268313,
    0.000000011924881,
    0.3826836,
    0.707107,
    0.92387956,
];

const SIDE_SINES: [f32; 16] = [
    0.19509032,
    0.55557024,
    0.83146966,
    0.98078525,
    0.98078525,
    0.83146954,
    0.5555702,
    0.19509009,
    -0.19509049,
    -0.5555703,
    -0.8314698,
    -0.98078537,
    -0.98078525,
    -0.8314695,
    -0.5555699,
    -0.19509023,
];

const SIDE_COSINES: [f32; 16] = [
    0.98078525,
    0.8314696,
    0.5555702,
    0.19509035,
    -0.19509032,
    -0.55557036,
    -0.83146966,
    -0.9807853,
    -0.98078525,
    -0.83146954,
    -0.55557,
    -0.19508992,
    0.19509041,
    0.5555704,
    0.83146983,
    0.9807853,
];

// Of the ring points. A constant array is copied at each use: a loop asks for all before it begins. One
// function for both would be no plainer: its parameter would only pick the tables.
pub fn ring_sin_cos() -> SinCos
    ensures { result ≡ sin_cos angle }
{
    SinCos {
        sin: RING_SINES,
        cos: RING_COSINES,
    }
}

// Of the directions that the sides face.
pub fn side_sin_cos() -> SinCos
    ensures { result ≡ sin_cos side_angle }
{
    SinCos {
        sin: SIDE_SINES,
        cos: SIDE_COSINES,
    }
}
