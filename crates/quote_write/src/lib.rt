// The quote of a scene. The text is written whole into a lent array that is
// long enough for every scene of at most 4,096 bytes, and so is every working buffer.

#![tactic(auto)]

ghost use Rattle.std.specs.Prelude.{◌≡◌, ◌+◌, ◌≤◌, length};
ghost use Rattle.lists.specs.Loops.{over};
ghost use Rattle.scene.specs.Scene.{scene, accepted};
ghost use Rattle.scene.specs.Contract.Answers.{objects_of};
ghost use Rattle.quote_text.specs.Quote.{objects_text, quote_text};
ghost use Rattle.quote_lines.specs.Contract.Writers.{RoomFor, Writes};
ghost use Rattle.quote_summary.specs.Contract.Summaries.{SummedUp};

use quote_lines::{Writer, put_counts, put_refused, put_verdict};
use quote_objects::put_objects;
use quote_summary::{Account, Summary, sum_up};

// Room for the text of every scene of at most 4,096 bytes.
pub type Text = [u8; 25743];

// All lines of an accepted scene.
fn put_accepted(to: &mut Writer<'_>, s: &[u8], account: &Account, m: Summary)
    requires { (scene s.now ≡ accepted (objects_of (scene s.now))) × SummedUp (objects_of (scene s.now)) m account.now
        × (length s.now ≤ 4096) × RoomFor to.old 25743 }
    ensures { Writes to.old (objects_text (objects_of (scene s.now))) to.new × (to.new.at ≤ to.old.at + 25743) }
{
    put_objects(to, s, account, m.objects);
    put_counts(to, m.vertices, m.indices, m.spans);
    put_verdict(to, m.ok);
}

fn put_scene(to: &mut Writer<'_>, s: &[u8])
    requires { (length s.now ≤ 4096) × RoomFor to.old 25743 }
    ensures { Writes to.old (quote_text s.now) to.new × (to.new.at ≤ to.old.at + 25743) }
{
    let mut account = [0u32; 1488];
    let m = sum_up(s, &mut account);
    if m.refusal != 0 {
        put_refused(to, m.refusal);
    } else {
        put_accepted(to, s, &account, m);
    }
}

// The text of a scene, from the start of the array on, and its length; the rest of the array keeps
// its contents.
pub fn quote(s: &[u8], text: &mut Text) -> usize
    ensures { (result ≡ length (quote_text s.now)) × (text.new ≡ over (quote_text s.now) text.old) × (result ≤ 25743) }
{
    let mut to = Writer { text, at: 0 };
    let most = 4096;
    if most < s.len() {
        put_refused(&mut to, 1);
    } else {
        put_scene(&mut to, s);
    }
    to.at
}
