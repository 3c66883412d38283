// Entries of the log and triangles in the lent buffers. A store past the end is left out.

#![tactic(auto)]

ghost use Rattle.std.specs.Prelude.{◌≡◌, ◌∷◌, [], ◌*◌};
ghost use Rattle.face_triangle.specs.Triangles.{triangle};
ghost use Rattle.lid.specs.Log.{entry};
ghost use Rattle.lid.specs.Contract.Written.{log_with, triangles_with};

use buffer::{put_four, put_three};
use lid::ENTRY_WIDTH;

// Writes entry n of the log. The mark stays a u32: this function takes every number, and may not ask for more.
// A log is a lent slice with how many entries stand in it, since nothing is allocated.
#[tactic(auto, unfolding(lid::specs::Log::log_numbers, lists::specs::Loops::join))]
pub fn put_entry(log: &mut [u32], n: u32, mark: u32, a: u32, b: u32, c: u32)
    ensures { log.new ≡ log_with log.old n (entry mark a b c ∷ []) }
{
    put_four(log, ENTRY_WIDTH * (n as usize), mark, a, b, c);
}

// Writes triangle n.
#[tactic(auto, unfolding(lid::specs::Contract::Written::triangle_numbers, lists::specs::Loops::join))]
pub fn put_triangle(s: &mut [u32], n: u32, a: u32, b: u32, c: u32)
    ensures { s.new ≡ triangles_with s.old n (triangle a b c ∷ []) }
{
    put_three(s, n, a, b, c);
}
