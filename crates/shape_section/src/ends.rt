// The places of the sections at a sweep's ends and beside them.
ghost use Rattle.std.specs.Prelude.{◌+◌, ◌*◌, ◌<◌, ◌^◌};
ghost use Rattle.shape_section.specs.Contract.Places.{EndPlaces};

// The places of a sweep's last section and of those beside its first and its last one: between these
// `end_directions` of object_mesh.rs takes its directions. One section alone stands beside itself.
#[derive(Clone, Copy)]
pub struct Places {
    pub second: usize,
    pub last: usize,
    pub previous: usize,
}

pub fn end_places(at: usize, n: usize) -> Places
    requires { (0 < n) × (at + 48 * n < 2 ^ 64) }
    ensures { EndPlaces at n result.second result.last result.previous }
{
    let last = at + 48 * (n - 1);
    if n < 2 {
        return Places {
            second: at,
            last,
            previous: at,
        };
    }
    Places {
        second: at + 48,
        last,
        previous: last - 48,
    }
}
