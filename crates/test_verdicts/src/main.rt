// Reads meshes from the file `meshes` and prints what Validate says of each, one to a line.
// A mesh is a count of vertex numbers, a count of indices, the numbers and the indices, all in
// words of four bytes, the lowest first. compare/verdicts makes the file and the lines.

#![tactic(auto)]

use std::io::Read;
use std::{fs, io};
use test_words::next_word;
use validate::{MeshError, Validation};

// Where the input ends, the rest stays as it was.
fn read(input: &mut impl Read, vertices: &mut [f32], indices: &mut [u32]) -> io::Result<()> {
    for x in vertices.iter_mut() {
        let Some(w) = next_word(input)? else {
            return Ok(());
        };
        *x = test_words::float(w);
    }
    for i in indices.iter_mut() {
        let Some(w) = next_word(input)? else {
            return Ok(());
        };
        *i = w;
    }
    Ok(())
}

fn say(rt: &impl Print, validation: Validation) -> io::Result<()> {
    match validation {
        Ok(Ok(())) => println!(rt; "ok"),
        Ok(Err(MeshError::Empty)) => println!(rt; "empty"),
        Ok(Err(MeshError::NonFiniteVertex(i))) => println!(rt; "nonfinite {i}"),
        Ok(Err(MeshError::IndexOutOfRange(t, i, n))) => println!(rt; "range {t} {i} {n}"),
        Ok(Err(MeshError::DegenerateTriangle(t))) => println!(rt; "degenerate {t}"),
        Err(refusal) => {
            let number = u32::from(refusal);
            println!(rt; "refused {number} 0")
        }
    }
}

fn judge(
    rt: &impl Print,
    input: &mut impl Read,
    vertices: &mut [f32],
    indices: &mut [u32],
) -> io::Result<()> {
    read(input, vertices, indices)?;
    say(rt, validate_mesh::validate(vertices, indices))
}

// One mesh of at most 4,096 numbers of each kind: whether there was one.
fn one(rt: &impl Print, input: &mut impl Read) -> io::Result<bool> {
    let Some(a) = next_word(input)? else {
        return Ok(false);
    };
    let Some(b) = next_word(input)? else {
        return Ok(false);
    };
    let v = a as usize;
    let i = b as usize;
    if 4096 < v || 4096 < i {
        return Ok(false);
    }
    let mut vertices = [0.0f32; 4096];
    let mut indices = [0u32; 4096];
    judge(rt, input, &mut vertices[..v], &mut indices[..i])?;
    Ok(true)
}

fn main(rt: HostRuntime) -> io::Result<()> {
    let mut meshes = fs::open(&rt, "meshes")?;
    for _ in 0..100000 {
        if !one(&rt, &mut meshes)? {
            return Ok(());
        }
    }
    Ok(())
}
