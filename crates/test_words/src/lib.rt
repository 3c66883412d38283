// Words of a file and the numbers that bit patterns stand for, for the test programs.

#![tactic(auto)]

ghost use Rattle.std.specs.Prelude.{◌≡◌, length, IfOk, IfSome};
ghost use Rattle.std.specs.Float.{binary32, binary64};
ghost use Rattle.std.specs.Float.Ieee.{of_bits};
ghost use Rattle.test_words.specs.Words.{word_of};

use std::io;
use std::io::Read;
use std::num::{f32_from_bits_with_nan, f64_from_bits_with_nan};

// The word in four bytes, the lowest first, of which n were read.
pub fn word(four: &[u8], n: usize) -> Option<u32>
    ensures { result ≡ word_of four.now n }
{
    let whole = 4;
    if n < whole {
        return None;
    }
    Some(scene_field::u32_at(four, 0))
}

// The word that the next four bytes of the input are, where it has so many.
pub fn next_word<R: Read>(input: &mut R) -> io::Result<Option<u32>>
    ensures { IfOk result (λ next. IfSome (R.remaining input.old) (λ bytes. next ≡ word_of bytes (length bytes))) }
{
    let mut four = [0u8; 4];
    let n = input::read_full(input, &mut four)?;
    Ok(word(&four, n))
}

// The f32 with these bits. Of two widths, one call of the library each: one generic function is no plainer.
pub fn float(bits: u32) -> f32
    ensures { result ≡ of_bits binary32 bits }
{
    f32_from_bits_with_nan(bits)
}

// The f64 with these bits.
pub fn double(bits: u64) -> f64
    ensures { result ≡ of_bits binary64 bits }
{
    f64_from_bits_with_nan(bits)
}
