// Reads scenes from the file `scenes` and prints what the check says of each, one to a line. The
// file and the expected lines are made by compare/refusals.py, which tells the file's layout.

#![tactic(auto)]

ghost use Rattle.std.specs.Prelude.{◌≡◌, ◌+◌, ◌≤◌, length, IfOk, IfErr, IfSome};

use input::read_full;
use refusal::Refused;
use scene_check::check_scene;
use std::io::Read;
use std::{fs, io};
use test_words::next_word;

// What a piece of a scene is made of.
#[derive(Clone, Copy)]
enum Kind {
    // Bytes of the file.
    Bytes,
    // Bytes that stand before it.
    Again,
    // Numbers, each larger than the one before by the same step.
    Steps,
}

impl From<u32> for Kind {
    fn from(number: u32) -> Kind {
        match number {
            0 => Kind::Bytes,
            1 => Kind::Again,
            _ => Kind::Steps,
        }
    }
}

// A piece of a scene: its kind and three numbers.
#[derive(Clone, Copy)]
struct Piece {
    kind: Kind,
    count: u32,
    first: u32,
    step: u32,
}

fn next_piece(input: &mut impl Read) -> io::Result<Option<Piece>> {
    let Some(kind) = next_word(input)? else {
        return Ok(None);
    };
    let Some(count) = next_word(input)? else {
        return Ok(None);
    };
    let Some(first) = next_word(input)? else {
        return Ok(None);
    };
    let Some(step) = next_word(input)? else {
        return Ok(None);
    };
    Ok(Some(Piece {
        kind: Kind::from(kind),
        count,
        first,
        step,
    }))
}

// The place behind n more bytes, where there is room for them.
fn end_of(room: usize, at: usize, n: usize) -> Option<usize>
    ensures { IfSome result (λ end. (end ≡ at + n) × (end ≤ room)) }
{
    at.checked_add(n).filter(|end| *end <= room)
}

// The next n bytes of the file, from place `at` on. Each of these answers the place behind what it
// wrote; where that does not fit it writes nothing and answers 0, where the next piece then stands.
fn put_bytes(input: &mut impl Read, to: &mut [u8], at: usize, n: usize) -> io::Result<usize>
    ensures ok { IfOk result (λ end. end ≤ length to.old) }
    ensures err { IfErr result (λ e. length to.new ≡ length to.old) }
{
    let Some(end) = end_of(to.len(), at, n) else {
        return Ok(0);
    };
    read_full(input, &mut to[at..end])?;
    Ok(end)
}

// n bytes, each the one that stands `back` places before it.
fn put_again(to: &mut [u8], at: usize, n: usize, back: usize) -> usize
    ensures { result ≤ length to.old }
{
    let Some(end) = end_of(to.len(), at, n) else {
        return 0;
    };
    if at < back {
        return 0;
    }
    for i in at..end {
        let b = to[i - back];
        to[i] = b;
    }
    end
}

// n numbers of four bytes: `first`, and each next one larger by `step`.
fn put_steps(to: &mut [u8], at: usize, n: u32, first: u32, step: u32) -> usize
    ensures { result ≤ length to.old }
{
    let Some(end) = end_of(to.len(), at, 4 * (n as usize)) else {
        return 0;
    };
    let mut w = first;
    for four in to[at..end].chunks_exact_mut(4) {
        four.copy_from_slice(&w.to_le_bytes());
        w = w.wrapping_add(step);
    }
    end
}

fn put_piece(input: &mut impl Read, to: &mut [u8], at: usize, p: Piece) -> io::Result<usize>
    ensures ok { IfOk result (λ end. end ≤ length to.old) }
    ensures err { IfErr result (λ e. length to.new ≡ length to.old) }
{
    match p.kind {
        Kind::Bytes => put_bytes(input, to, at, p.count as usize),
        Kind::Again => Ok(put_again(to, at, p.count as usize, p.first as usize)),
        Kind::Steps => Ok(put_steps(to, at, p.count, p.first, p.step)),
    }
}

// The length of the scene that the pieces make.
fn put_scene(input: &mut impl Read, to: &mut [u8], pieces: u32) -> io::Result<usize>
    ensures ok { IfOk result (λ end. end ≤ length to.old) }
    ensures err { IfErr result (λ e. length to.new ≡ length to.old) }
{
    let mut at = 0;
    for _ in 0..pieces {
        let Some(p) = next_piece(input)? else {
            return Ok(0);
        };
        at = put_piece(input, to, at, p)?;
    }
    Ok(at)
}

fn say(rt: &impl Print, checked: Result<u32, Refused>) -> io::Result<()> {
    match checked {
        Ok(n) => println!(rt; ": accepted {n}"),
        Err(refused) => {
            let number = u32::from(refused.refusal);
            let object = refused.object;
            println!(rt; ": refused {number} object {object}")
        }
    }
}

// One scene: whether there was one.
fn one(
    rt: &impl Print,
    input: &mut impl Read,
    label: &mut [u8],
    to: &mut [u8],
) -> io::Result<bool> {
    let Some(size) = next_word(input)? else {
        return Ok(false);
    };
    let Some(pieces) = next_word(input)? else {
        return Ok(false);
    };
    let named = put_bytes(input, label, 0, size as usize)?;
    rt.write_all(&label[..named])?;
    let end = put_scene(input, to, pieces)?;
    say(rt, check_scene(&to[..end]))?;
    Ok(true)
}

fn main(rt: HostRuntime) -> io::Result<()> {
    let mut scenes = fs::open(&rt, "scenes")?;
    let mut label = [0u8; 64];
    let mut to = [0u8; 1048576];
    for _ in 0..100000 {
        if !one(&rt, &mut scenes, &mut label, &mut to)? {
            return Ok(());
        }
    }
    Ok(())
}
