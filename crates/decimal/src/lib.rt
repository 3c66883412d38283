// Whole numbers in decimal, written into lent text, and how many bytes they take.

#![tactic(auto)]

ghost use Rattle.std.specs.Prelude.{◌≡◌, [], ◌∷◌, ◌+◌, ◌/◌, ◌%◌, ◌≤◌, ◌<◌, nat_abs, length};
ghost use Rattle.std.proofs.lemmas.List.Edits.{sets};
ghost use Rattle.decimal.specs.Decimals.{decimal};
ghost use Rattle.decimal.specs.Contract.Decimals.{integer, ten_to};
ghost use Rattle.decimal.specs.Contract.Texts.{HasRoom, Wrote};

// 10^k, but 0 at 0, which `pow` has not. A match is compiled to a table, where an array would be copied at each call.
fn ten_to(k: u64) -> u64
    requires { k < 20 }
    ensures { result ≡ ten_to k }
{
    match k {
        0 => 0,
        1 => 10,
        2 => 100,
        3 => 1000,
        4 => 10000,
        5 => 100000,
        6 => 1000000,
        7 => 10000000,
        8 => 100000000,
        9 => 1000000000,
        10 => 10000000000,
        11 => 100000000000,
        12 => 1000000000000,
        13 => 10000000000000,
        14 => 100000000000000,
        15 => 1000000000000000,
        16 => 10000000000000000,
        17 => 100000000000000000,
        18 => 1000000000000000000,
        _ => 10000000000000000000,
    }
}

// How many digits n has. A number of so many bits has `guess` digits or one more: 1233 / 4096 is
// nearly the logarithm of 2 to base 10.
pub fn decimal_size(n: u64) -> usize
    ensures { result ≡ length (decimal n) }
{
    let bits = 64 - (n.leading_zeros() as u64);
    let guess = bits * 1233 / 4096;
    if n < ten_to(guess) {
        guess as usize
    } else {
        (guess as usize) + 1
    }
}

// The bytes of the sign.
fn sign_size(x: i64) -> usize
    ensures { result + length (decimal (nat_abs x)) ≡ length (integer x) }
{
    if x >= 0 { 0 } else { 1 }
}

pub fn integer_size(x: i64) -> usize
    ensures { result ≡ length (integer x) }
{
    sign_size(x) + decimal_size(x.unsigned_abs())
}

fn digit(d: u64) -> u8
    requires { d < 10 }
    ensures { result ≡ 48 + d }
{
    48 + (d as u8)
}

// Both digits of a number below 100, a zero in front as well.
fn put_pair(text: &mut [u8], at: usize, two: u64)
    requires { (two < 100) × (at + 1 < length text.old) }
    ensures { text.new ≡ sets text.old at ((48 + two / 10) ∷ (48 + two % 10) ∷ []) }
{
    text[at] = digit(two / 10);
    text[at + 1] = digit(two % 10);
}

// A number of one or two digits.
fn put_short(text: &mut [u8], at: usize, n: u64)
    requires { (n < 100) × HasRoom text.old at (decimal n) }
    ensures { Wrote text.old at (decimal n) text.new (at + length (decimal n)) }
{
    if n < 10 {
        text[at] = digit(n);
    } else {
        put_pair(text, at, n);
    }
}

// n from a place on, two digits at a time from the end; answers the next place.
pub fn put_decimal(text: &mut [u8], at: usize, n: u64) -> usize
    requires { HasRoom text.old at (decimal n) }
    ensures { Wrote text.old at (decimal n) text.new result }
{
    let next = at + decimal_size(n);
    let mut i = next;
    let mut rest = n;
    // As many turns as `rest` has pairs of digits left: a `for` would have to count them first.
    while 100 <= rest {
        let two = rest % 100;
        rest = rest / 100;
        i = i - 2;
        put_pair(text, i, two);
    }
    put_short(text, at, rest);
    next
}

// The sign is stored in any case: where there is none, the first digit goes over it. So no branch
// depends on the sign.
pub fn put_integer(text: &mut [u8], at: usize, x: i64) -> usize
    requires { HasRoom text.old at (integer x) }
    ensures { Wrote text.old at (integer x) text.new result }
{
    text[at] = b'-';
    let digits = x.unsigned_abs();
    put_decimal(text, at + sign_size(x), digits)
}
