// Reads scenes from the file `scenes` and prints the quote of each, as the quote program does. A
// scene is its size, a word of four bytes, the lowest first, and its bytes: at most 4,097.
// compare/quotes.py makes the file and the expected text.

#![tactic(auto)]

use input::read_full;
use std::io::Read;
use std::{fs, io};
use test_words::next_word;

fn write_quote(rt: &impl Print, s: &[u8]) -> io::Result<()> {
    let mut text = [0u8; 25743];
    let m = quote_write::quote(s, &mut text);
    rt.write_all(&text[..m])
}

fn quote_next(rt: &impl Print, input: &mut impl Read, scene: &mut [u8]) -> io::Result<()> {
    read_full(input, scene)?;
    write_quote(rt, scene)
}

// Whether there was a scene.
fn one(rt: &impl Print, input: &mut impl Read) -> io::Result<bool> {
    let Some(size) = next_word(input)? else {
        return Ok(false);
    };
    let n = size as usize;
    if 4097 < n {
        return Ok(false);
    }
    let mut scene = [0u8; 4097];
    quote_next(rt, input, &mut scene[..n])?;
    Ok(true)
}

fn main(rt: HostRuntime) -> io::Result<()> {
    let mut scenes = fs::open(&rt, "scenes")?;
    for _ in 0..100000 {
        if !one(&rt, &mut scenes)? {
            return Ok(());
        }
    }
    Ok(())
}
