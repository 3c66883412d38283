// Numbers at a place of the scene's bytes, little-endian. Whole numbers stand here.

#![tactic(auto)]

pub mod allowed;

ghost use Rattle.std.specs.Prelude.{◌≡◌, ◌+◌, ◌≤◌, length};
ghost use Rattle.scene_field.specs.Fields.{u16_at, u32_at, u64_at};

// ---- where the bytes are there

// One call of the library's `from_le_bytes` each, which has no generic form: a generic one is no plainer.

pub fn u16_in(s: &[u8], i: usize) -> u16
    requires { i + 2 ≤ length s.now }
    ensures { result ≡ u16_at s.now i }
{
    u16::from_le_bytes([s[i], s[i + 1]])
}

pub fn u32_in(s: &[u8], i: usize) -> u32
    requires { i + 4 ≤ length s.now }
    ensures { result ≡ u32_at s.now i }
{
    u32::from_le_bytes([s[i], s[i + 1], s[i + 2], s[i + 3]])
}

pub fn u64_in(s: &[u8], i: usize) -> u64
    requires { i + 8 ≤ length s.now }
    ensures { result ≡ u64_at s.now i }
{
    let bytes = [
        s[i],
        s[i + 1],
        s[i + 2],
        s[i + 3],
        s[i + 4],
        s[i + 5],
        s[i + 6],
        s[i + 7],
    ];
    u64::from_le_bytes(bytes)
}

// ---- anywhere: past the end every byte counts as 0, as it does for `get_or`

// Of `u16_at` and `u32_at` a generic one would fill an array by a loop: no plainer.

pub fn u16_at(s: &[u8], i: usize) -> u16
    ensures { result ≡ u16_at s.now i }
{
    if s.len() <= i {
        return 0;
    }
    if 2 <= s.len() - i {
        return u16_in(s, i);
    }
    s[i] as u16
}

pub fn u32_at(s: &[u8], i: usize) -> u32
    ensures { result ≡ u32_at s.now i }
{
    if s.len() <= i {
        return 0;
    }
    if 4 <= s.len() - i {
        return u32_in(s, i);
    }
    (u16_at(s, i) as u32) + 65536 * (u16_at(s, i + 2) as u32)
}
