// The objects' lines of a quote, written into lent text.

#![tactic(auto)]

ghost use Rattle.std.specs.Prelude.{◌+◌, ◌*◌, ◌≤◌};
ghost use Rattle.lists.specs.Loops.{join};
ghost use Rattle.scene.specs.Scene.{scene};
ghost use Rattle.scene.specs.Contract.Answers.{objects_of};
ghost use Rattle.quote_lines.specs.Contract.Writers.{RoomFor, Writes};
ghost use Rattle.quote_text.specs.Quote.{object_line};
ghost use Rattle.quote_objects.specs.Contract.Accounts.{Priced};

use mesh::ACCOUNT_WIDTH;
use quote_lines::{Writer, put_object};
use scene_header::header_at;

// A line for each of the n objects.
pub fn put_objects(to: &mut Writer<'_>, s: &[u8], account: &[u32], n: usize)
    requires { Priced s.now account.now n × RoomFor to.old (69 * n) }
    ensures { Writes to.old (join object_line (objects_of (scene s.now))) to.new × (to.new.at ≤ to.old.at + 69 * n) }
{
    let mut at = 0;
    for k in 0..n {
        let h = header_at(s, at);
        let i = ACCOUNT_WIDTH * k;
        put_object(to, h.id, account[i], account[i + 1], account[i + 2]);
        at += h.size;
    }
}
