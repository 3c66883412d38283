// The lines of a quote, written into lent text. Every number is a u32, so that a line's greatest
// length is known by its words.

#![tactic(auto)]

ghost use Rattle.std.specs.Prelude.{◌≡◌, ◌++◌, ◌+◌, ◌≤◌, length, [], ◌∷◌};
ghost use Rattle.decimal.specs.Decimals.{decimal};
ghost use Rattle.quote_lines.specs.Lines.{refused_line, account_line, counts_line, is_ok, verdict_line};
ghost use Rattle.quote_lines.specs.Contract.Writers.{RoomFor, Writes};

use decimal::put_decimal;
use validate::Validation;

// Lent text, and the place behind what is written.
#[derive(Drop)]
pub struct Writer<'a> {
    pub text: &'a mut [u8],
    pub at: usize,
}

impl Writer<'_> {
    fn put_byte(&mut self, byte: u8)
        requires { RoomFor self.old 1 }
        ensures { Writes self.old (byte ∷ []) self.new }
    {
        self.text[self.at] = byte;
        self.at += 1;
    }

    fn put_word(&mut self, word: &[u8])
        requires { RoomFor self.old (length word.now) }
        ensures { Writes self.old word.now self.new }
    {
        let end = self.at + word.len();
        self.text[self.at..end].copy_from_slice(word);
        self.at = end;
    }

    // A number of at most ten digits.
    fn put_number(&mut self, n: u32)
        requires { RoomFor self.old 10 }
        ensures { Writes self.old (decimal n) self.new }
    {
        self.at = put_decimal(self.text, self.at, u64::from(n));
    }

    fn put_field(&mut self, word: &[u8], n: u32)
        requires { RoomFor self.old (length word.now + 10) }
        ensures { Writes self.old (word.now ++ decimal n) self.new × (self.new.at ≤ self.old.at + (length word.now + 10)) }
    {
        self.put_word(word);
        self.put_number(n);
    }
}

pub fn put_refused(to: &mut Writer<'_>, number: u32)
    requires { RoomFor to.old 19 }
    ensures { Writes to.old (refused_line number) to.new × (to.new.at ≤ to.old.at + 19) }
{
    to.put_field(b"refused ", number);
    to.put_word(b"\n");
}

// One object: its id, and the first three numbers of its account.
pub fn put_object(to: &mut Writer<'_>, id: u32, offered: u32, kept: u32, thin: u32)
    requires { RoomFor to.old 69 }
    ensures { Writes to.old (account_line id offered kept thin) to.new × (to.new.at ≤ to.old.at + 69) }
{
    to.put_field(b"object ", id);
    to.put_field(b" offered ", offered);
    to.put_field(b" kept ", kept);
    to.put_field(b" thin ", thin);
    to.put_byte(b'\n');
}

pub fn put_counts(to: &mut Writer<'_>, vertices: u32, indices: u32, spans: u32)
    requires { RoomFor to.old 61 }
    ensures { Writes to.old (counts_line vertices indices spans) to.new × (to.new.at ≤ to.old.at + 61) }
{
    to.put_field(b"mesh ", vertices);
    to.put_field(b" vertices ", indices);
    to.put_field(b" indices ", spans);
    to.put_word(b" spans\n");
}

pub fn is_ok(v: Validation) -> bool
    ensures { result ≡ is_ok v }
{
    matches!(v, Ok(Ok(())))
}

pub fn put_verdict(to: &mut Writer<'_>, ok: bool)
    requires { RoomFor to.old 14 }
    ensures { Writes to.old (verdict_line ok) to.new × (to.new.at ≤ to.old.at + 14) }
{
    if ok {
        to.put_word(b"verdict ok\n");
    } else {
        to.put_word(b"verdict empty\n");
    }
}
