// What the lines of a quote but the objects' are written from, and the account, by Build and
// Validate.

#![tactic(auto)]

ghost use Rattle.std.specs.Prelude.{◌≡◌, ◌≤◌, length};
ghost use Rattle.mesh_answer.specs.Answers.{answer_from};
ghost use Rattle.quote_summary.specs.Contract.Summaries.{summary_of, Summed};

use mesh::{ACCOUNT_WIDTH, SPAN_WIDTH};
use mesh_answer::Answer;
use mesh_build_and_validate::build_and_validate;
use quote_lines::is_ok;
use validate::Validation;

// The account of every scene of at most 4,096 bytes.
pub type Account = [u32; 1488];

#[derive(Clone, Copy)]
pub struct Summary {
    pub refusal: u32,
    pub objects: usize,
    pub vertices: u32,
    pub indices: u32,
    pub spans: u32,
    pub ok: bool,
}

fn summary_of(a: Answer, v: Validation) -> Summary
    ensures { result ≡ summary_of (answer_from a) v }
{
    let c = a.counts;
    Summary {
        refusal: a.refusal,
        objects: (c.account as usize) / ACCOUNT_WIDTH,
        vertices: c.vertices / 3,
        indices: c.indices,
        spans: c.spans / (SPAN_WIDTH as u32),
        ok: is_ok(v),
    }
}

// Build and Validate, with working buffers of `room_for 4096` numbers.
pub fn sum_up(s: &[u8], account: &mut Account) -> Summary
    requires { length s.now ≤ 4096 }
    ensures { Summed s.now result account.old account.new }
{
    let mut vertices = [0.0f32; 24576];
    let mut normals = [0.0f32; 24576];
    let mut indices = [0u32; 36864];
    let mut spans = [0u32; 1860];
    let mut log = [0u32; 32768];
    let mut millimetres = [0i64; 24576];
    let r = build_and_validate(
        s,
        &mut vertices,
        &mut normals,
        &mut indices,
        &mut spans,
        account,
        &mut log,
        &mut millimetres,
    );
    let answer = r.answer;
    let validation = r.validation;
    summary_of(Answer::from(answer), validation)
}
