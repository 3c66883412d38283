// Checks a whole scene.

#![tactic(auto)]

mod record;

ghost use Rattle.std.specs.Prelude.{◌≡◌, ◌+◌, ◌*◌, ◌≤◌, length};
ghost use Rattle.scene_field.specs.Layout.{most_objects};
ghost use Rattle.scene.specs.Scene.{scene, records_from};
ghost use Rattle.scene.specs.Contract.Answers.{checked_of};

use crate::record::Records;
use refusal::{Refusal, Refused};
use scene::layout::{MOST_BYTES, MOST_OBJECTS};
use scene_field::u32_in;

// The n records, whose places the trailer lists.
fn check_records(records: Records, n: u32) -> Result<u32, Refused>
    requires { (records.end + 4 * n ≤ length records.bytes.now) × (n ≤ most_objects) }
    ensures { result ≡ checked_of (records_from records.entry.bytes.now records.entry.end n 0 0) }
{
    let mut i = 0;
    for k in 0..n {
        // The closure below keeps `object`, and the proof names `k`.
        let object = k;
        if u32_in(records.bytes, records.end + 4 * (k as usize)) as usize != i {
            return Err(Refused {
                refusal: Refusal::Start,
                object,
            });
        }
        i = records
            .check_record(i)
            .map_err(|refusal| Refused { refusal, object })?;
    }
    if i != records.end {
        return Err(Refused {
            refusal: Refusal::Start,
            object: n,
        });
    }
    Ok(n)
}

// A refusal of the scene as a whole names object 0.
fn refused(refusal: Refusal) -> Result<u32, Refused>
    ensures { result ≡ Err (record { refusal = refusal; object = 0 }) }
{
    Err(Refused { refusal, object: 0 })
}

// The first row of section 2 that the scene meets, up to number 7, or how many objects it has.
pub fn check_scene(s: &[u8]) -> Result<u32, Refused>
    ensures { result ≡ checked_of (scene s.now) }
{
    let len = s.len();
    if len < 4 {
        return refused(Refusal::Length);
    }
    if MOST_BYTES < len {
        return refused(Refusal::Length);
    }
    let n = u32_in(s, len - 4);
    let most = MOST_OBJECTS;
    if most < n {
        return refused(Refusal::Trailer);
    }
    let size = 4 * (n as usize) + 4;
    if len < size {
        return refused(Refusal::Trailer);
    }
    let records = Records {
        bytes: s,
        end: len - size,
    };
    check_records(records, n)
}
