// Reads scenes from the file `scenes` and prints what Build and Validate answer to each, one to a
// line: the refusal and the object named, or the seven counts of numbers, the FNV-1a 64 hash of what
// was written to each buffer, and the verdict. A scene is its size and its bytes, sizes in words of
// four bytes, the lowest first. compare/replay.py makes the file and the expected lines.

#![tactic(auto)]

use input::read_full;
use mesh_answer::Counted;
use std::io::Read;
use std::num::f32_to_bits_with_nan;
use std::{fs, io};
use test_words::next_word;
use validate::{MeshError, Validation};

const START: u64 = 0xcbf2_9ce4_8422_2325;

const PRIME: u64 = 0x100_0000_01b3;

// The hash with some bytes more.
fn with_bytes(h: u64, bytes: &[u8]) -> u64 {
    bytes
        .iter()
        .fold(h, |h, b| (h ^ u64::from(*b)).wrapping_mul(PRIME))
}

// What is hashed by its bytes, the lowest first.
trait Hashed: Copy {
    // The hash with the bytes of one more.
    fn with(self, h: u64) -> u64;
}

impl Hashed for u32 {
    fn with(self, h: u64) -> u64 {
        with_bytes(h, &self.to_le_bytes())
    }
}

// The pattern of an f32: of each NaN the same one.
impl Hashed for f32 {
    fn with(self, h: u64) -> u64 {
        f32_to_bits_with_nan(self).with(h)
    }
}

impl Hashed for i64 {
    fn with(self, h: u64) -> u64 {
        with_bytes(h, &self.to_le_bytes())
    }
}

fn hash<T: Hashed>(s: &[T]) -> u64 {
    s.iter().fold(START, |h, x| x.with(h))
}

// The hash of the first n.
fn write_hash<T: Hashed>(rt: &impl Print, s: &[T], n: u32) -> io::Result<()> {
    if let Some(written) = s.get(..n as usize) {
        let h = hash(written);
        print!(rt; " {h:016x}")?;
    }
    Ok(())
}

// What follows the hashes.
fn verdict_word(validation: Validation) -> &'static str {
    match validation {
        Ok(Ok(())) => "ok",
        Ok(Err(MeshError::Empty)) => "empty",
        Ok(Err(_)) => "other",
        Err(_) => "other",
    }
}

fn write_counts(rt: &impl Print, c: Counted) -> io::Result<()> {
    let vertices = c.vertices;
    let normals = c.normals;
    let indices = c.indices;
    let spans = c.spans;
    let account = c.account;
    let log = c.log;
    let millimetres = c.millimetres;
    print!(rt; "ok {vertices} {normals} {indices} {spans} {account} {log} {millimetres}")
}

fn write_mesh(
    rt: &impl Print,
    c: Counted,
    vertices: &[f32],
    normals: &[f32],
    indices: &[u32],
) -> io::Result<()> {
    write_hash(rt, vertices, c.vertices)?;
    write_hash(rt, normals, c.normals)?;
    write_hash(rt, indices, c.indices)
}

fn write_records(
    rt: &impl Print,
    c: Counted,
    spans: &[u32],
    account: &[u32],
    log: &[u32],
) -> io::Result<()> {
    write_hash(rt, spans, c.spans)?;
    write_hash(rt, account, c.account)?;
    write_hash(rt, log, c.log)
}

// One scene, with buffers for every scene of at most 4,096 bytes.
fn replay(rt: &impl Print, s: &[u8]) -> io::Result<()> {
    let mut vertices = [0.0f32; 24576];
    let mut normals = [0.0f32; 24576];
    let mut indices = [0u32; 36864];
    let mut spans = [0u32; 36864];
    let mut account = [0u32; 36864];
    let mut log = [0u32; 36864];
    let mut millimetres = [0i64; 24576];
    let r = mesh_build_and_validate::build_and_validate(
        s,
        &mut vertices,
        &mut normals,
        &mut indices,
        &mut spans,
        &mut account,
        &mut log,
        &mut millimetres,
    );
    match r.answer {
        Err(refused) => {
            let number = u32::from(refused.refusal);
            let object = refused.object;
            println!(rt; "refused {number} {object}")
        }
        Ok(c) => {
            write_counts(rt, c)?;
            write_mesh(rt, c, &vertices, &normals, &indices)?;
            write_records(rt, c, &spans, &account, &log)?;
            write_hash(rt, &millimetres, c.millimetres)?;
            let word = verdict_word(r.validation);
            println!(rt; " {word}")
        }
    }
}

// The scene that the next bytes of the file are.
fn replay_next(rt: &impl Print, input: &mut impl Read, scene: &mut [u8]) -> io::Result<()> {
    read_full(input, scene)?;
    replay(rt, scene)
}

// Whether there was one.
fn one(rt: &impl Print, input: &mut impl Read) -> io::Result<bool> {
    let Some(size) = next_word(input)? else {
        return Ok(false);
    };
    let n = size as usize;
    if 4096 < n {
        return Ok(false);
    }
    let mut scene = [0u8; 4096];
    replay_next(rt, input, &mut scene[..n])?;
    Ok(true)
}

fn main(rt: HostRuntime) -> io::Result<()> {
    let mut scenes = fs::open(&rt, "scenes")?;
    for _ in 0..100000 {
        if !one(&rt, &mut scenes)? {
            return Ok(());
        }
    }
    Ok(())
}
