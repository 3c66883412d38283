// Checks one record of a scene. No check turns on the id, a solid's volume, whether an outline is
// closed or which sweep it is, so the contracts hold for each of them.
ghost use Rattle.std.specs.Prelude.{◌≡◌, Bool, List, ℕ, ◌+◌, ◌*◌, ◌≤◌, length};
ghost use Rattle.object.specs.declared.Extent.{Extent};
ghost use Rattle.object.specs.declared.Section.{Section};
ghost use Rattle.object.specs.Object.{Shape, Object};
ghost use Rattle.scene_field.specs.Layout.{most_holes};
ghost use Rattle.scene_field.specs.Fields.{all32};
ghost use Rattle.scene.specs.Scene.{rest, solid_at, outline_of, outline_at, sweep_at, kind_at, record_at};
ghost use Rattle.scene.specs.Contract.Answers.{end_of};
ghost use Rattle.scene.specs.Contract.Kinds.{byte_of};

use object::{MOST_CORNERS, MOST_HOLES};
use refusal::Refusal;
use scene::kinds::Kind;
use scene::layout::{MOST_SECTIONS, ORIENTATION_BYTES, POSITION_BYTES};
use scene_field::allowed::{all_allowed32, orientation_allowed};
use scene_field::u16_in;
use scene_header::hole_counts::sum_counts;

// The bytes of a scene, in which the records end where the trailer starts.
#[derive(Clone, Copy)]
pub(crate) struct Records<'a> {
    pub(crate) bytes: &'a [u8],
    pub(crate) end: usize,
    ghost within: { end ≤ length bytes.now },
}

impl Records<'_> {
    // A solid with w sizes; its position is at i.
    fn check_solid(self, i: usize, w: usize) -> Result<usize, Refusal>
        requires { (i ≤ self.end) × (w ≤ 3) }
        ensures { (id : ℕ) (x : Extent) → result ≡ end_of (solid_at self.entry.bytes.now self.entry.end id i w x) }
    {
        let before = POSITION_BYTES + ORIENTATION_BYTES;
        let size = before + 4 * w;
        if self.end - i < size {
            return Err(Refusal::Past);
        }
        let allowed = all_allowed32(self.bytes, 3, i)
            & orientation_allowed(self.bytes, i + POSITION_BYTES)
            & all_allowed32(self.bytes, w, i + before);
        if !allowed {
            return Err(Refusal::Numbers);
        }
        Ok(i + size)
    }

    // A record that ends in n numbers, which are at i.
    fn check_numbers(self, i: usize, n: usize) -> Result<usize, Refusal>
        requires { (i ≤ self.end) × (n ≤ 65536) }
        ensures { (o : Object) → result ≡ end_of (rest self.entry.end i (4 * n) (all32 self.entry.bytes.now n i) o) }
    {
        let size = 4 * n;
        if self.end - i < size {
            return Err(Refusal::Past);
        }
        if !all_allowed32(self.bytes, n, i) {
            return Err(Refusal::Numbers);
        }
        Ok(i + size)
    }

    // An outline whose counts, at i, are read but for those of its holes.
    fn check_corners(self, i: usize, outer: u16, holes: u16) -> Result<usize, Refusal>
        requires { (i + 4 + 2 * holes ≤ self.end) × (holes ≤ most_holes) }
        ensures { (id : ℕ) (closed : Bool) → result ≡ end_of (outline_of self.entry.bytes.now self.entry.end id closed outer holes i) }
    {
        let n = (outer as usize) + sum_counts(self.bytes, holes, i + 4);
        if MOST_CORNERS < n {
            return Err(Refusal::Counts);
        }
        self.check_numbers(i + 4 + 2 * (holes as usize), 6 * n)
    }

    // An outline; its counts are at i.
    fn check_outline(self, i: usize) -> Result<usize, Refusal>
        requires { i ≤ self.end }
        ensures { (id : ℕ) (closed : Bool) → result ≡ end_of (outline_at self.entry.bytes.now self.entry.end id closed i) }
    {
        if self.end - i < 4 {
            return Err(Refusal::Past);
        }
        let outer = u16_in(self.bytes, i);
        let holes = u16_in(self.bytes, i + 2);
        let most = MOST_HOLES;
        if most < holes as usize {
            return Err(Refusal::Counts);
        }
        if self.end - i < 4 + 2 * (holes as usize) {
            return Err(Refusal::Past);
        }
        self.check_corners(i, outer, holes)
    }

    // A sweep of either kind; its count is at i.
    fn check_sweep(self, i: usize) -> Result<usize, Refusal>
        requires { i ≤ self.end }
        ensures { (id : ℕ) (shape : List Section → Shape) → result ≡ end_of (sweep_at self.entry.bytes.now self.entry.end id shape i) }
    {
        if self.end - i < 2 {
            return Err(Refusal::Past);
        }
        let n = u16_in(self.bytes, i);
        if MOST_SECTIONS < n {
            return Err(Refusal::Counts);
        }
        self.check_numbers(i + 2, 12 * (n as usize))
    }

    // What follows the kind and the id.
    fn check_kind(self, i: usize, kind: Kind) -> Result<usize, Refusal>
        requires { i ≤ self.end }
        ensures { (id : ℕ) → result ≡ end_of (kind_at self.entry.bytes.now self.entry.end id i (byte_of kind)) }
    {
        match kind {
            Kind::Unsized => self.check_solid(i, 0),
            Kind::Box => self.check_solid(i, 3),
            Kind::Cylinder => self.check_solid(i, 2),
            Kind::OpenOutline | Kind::ClosedOutline => self.check_outline(i),
            Kind::Sweep | Kind::RoundSweep => self.check_sweep(i),
        }
    }

    // The record at i.
    pub(crate) fn check_record(self, i: usize) -> Result<usize, Refusal>
        ensures { result ≡ end_of (record_at self.entry.bytes.now self.entry.end i) }
    {
        if self.end < i {
            return Err(Refusal::Past);
        }
        let least = 5;
        if self.end - i < least {
            return Err(Refusal::Past);
        }
        self.check_kind(i + 5, Kind::try_from(self.bytes[i])?)
    }
}
