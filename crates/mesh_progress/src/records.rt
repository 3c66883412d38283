// Spans and accounts stored in the lent buffers. A store past the end is left out.
ghost use Rattle.std.specs.Prelude.{◌≡◌, ◌+◌, ◌*◌, ◌<◌, ◌^◌};
ghost use Rattle.std.proofs.lemmas.List.Edits.{sets};
ghost use Rattle.mesh.specs.Mesh.{span_width, account_width, span_numbers};
ghost use Rattle.mesh_progress.specs.Contract.Pass.{span_by, came_to, account_by};

use crate::Progress;
use buffer::{put, put_four};
use face::Tally;
use mesh::{ACCOUNT_WIDTH, SPAN_WIDTH};
use shape::Drawn;

// The span of an object that came to t, if it has one.
pub fn put_span(id: u32, p: Progress, t: Tally, spans: &mut [u32])
    requires { (p.vertices + t.vertices < 2 ^ 32) × (3 * (p.kept + t.kept) < 2 ^ 32) }
    ensures { spans.new ≡ sets spans.old (span_width * p.spans) (span_numbers (span_by id p t)) }
{
    if t.kept == 0 {
        return;
    }
    let at = SPAN_WIDTH * (p.spans as usize);
    put_four(
        spans,
        at,
        id,
        p.vertices,
        p.vertices + t.vertices,
        3 * p.kept,
    );
    put(spans, at + 4, 3 * (p.kept + t.kept));
}

// The account of object number n.
pub fn put_account(n: u32, d: Drawn, account: &mut [u32])
    ensures { account.new ≡ sets account.old (account_width * n) (account_by (came_to d)) }
{
    let t = d.after[5];
    put_four(
        account,
        ACCOUNT_WIDTH * (n as usize),
        d.offered,
        t.kept,
        t.thin,
        d.entries,
    );
}
