// A face, and what drawing faces leaves on a canvas: see specs/. The crate `face_draw` draws them.

#![tactic(auto)]

// What has been written and counted so far.
#[derive(Clone, Copy)]
pub struct Tally {
    pub vertices: u32,
    pub kept: u32,
    pub thin: u32,
}

impl Tally {
    // Nothing drawn.
    pub const NOTHING: Tally = Tally {
        vertices: 0,
        kept: 0,
        thin: 0,
    };
}

// What faces are drawn on: the lent buffers, what has been written to them and counted so far, how
// short a triangle's normal is if it is thin, and how many vertices lie before the buffers.
#[derive(Drop)]
pub struct Canvas<'a> {
    pub limit: f32,
    pub before: u32,
    pub tally: Tally,
    pub vertices: &'a mut [f32],
    pub normals: &'a mut [f32],
    pub indices: &'a mut [u32],
}
