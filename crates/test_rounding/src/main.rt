// Reads patterns of f32 from the file `roots` and of f64 from the file `narrowings`, and prints the
// pattern of each square root and then of each number narrowed to f32, one to a line. A pattern is a
// word of four bytes, or two for an f64, the lowest first. compare/rounding makes the files and the
// lines.

#![tactic(auto)]

use std::io::Read;
use std::{fs, io};
use test_words::next_word;

fn write_pattern(rt: &impl Print, x: f32) -> io::Result<()> {
    if x.is_nan() {
        return println!(rt; "nan");
    }
    let pattern = x.to_bits();
    println!(rt; "{pattern}")
}

// Whether there was one.
fn root(rt: &impl Print, input: &mut impl Read) -> io::Result<bool> {
    let Some(bits) = next_word(input)? else {
        return Ok(false);
    };
    write_pattern(rt, float_sqrt::sqrt(test_words::float(bits)))?;
    Ok(true)
}

fn narrowing(rt: &impl Print, input: &mut impl Read) -> io::Result<bool> {
    let Some(low) = next_word(input)? else {
        return Ok(false);
    };
    let Some(high) = next_word(input)? else {
        return Ok(false);
    };
    let bits = u64::from(high) << 32 | u64::from(low);
    write_pattern(rt, float_narrow::narrow(test_words::double(bits)))?;
    Ok(true)
}

fn main(rt: HostRuntime) -> io::Result<()> {
    let mut roots = fs::open(&rt, "roots")?;
    let mut narrowings = fs::open(&rt, "narrowings")?;
    let mut more = true;
    for _ in 0..100000 {
        if more {
            more = root(&rt, &mut roots)?;
        } else if !narrowing(&rt, &mut narrowings)? {
            return Ok(());
        }
    }
    Ok(())
}
