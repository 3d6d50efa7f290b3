// A run (U): the requests in a list of words, one after the other. What comes of it is the definition `run_handed` in specs/Requested.antt, the model's run of
// those that are requests; the state is checked once, and then each step leaves what the next one needs.
#![tactic(auto)]

ghost use Rattle.std.specs.Prelude.{◌≡◌, cond, ◌||◌, ◌<◌, length};
ghost use Rattle.spec_model.specs.Basics.{ok};
ghost use Rattle.state_record.specs.Whole.{whole};
ghost use Rattle.state_record.specs.View.{raw_state, system_in};
ghost use Rattle.state_record.specs.Sound.{Sound};
ghost use Rattle.request_common.specs.Served.{Step, done};
ghost use Rattle.request_by_code.specs.Coded.{serve_asked};
ghost use Rattle.request_words.specs.Words.{request, requests};
ghost use Rattle.request_words.specs.Found.{asked_at};
ghost use Rattle.request_run.specs.Requested.{run_asked, run_handed};
ghost use Rattle.request_run.specs.Ran.{room, over, Runs};

use base_numbers::index_of;
use base_numbers::refusal::Refusal;
use request_by_code::serve_coded;
use request_common::{Answer, copied};
use request_operands::CODES;
use request_words::{OUTCOME, next, operands_at, put_outcome};
use state_record::State;
use table_record::TYPE_BYTES;

// The request of a code as a word and its operands (U6).
fn serve(
    types: &mut [u8; TYPE_BYTES],
    s: &mut State,
    code: i64,
    ops: &[i64],
) -> Result<Answer, Refusal>
    requires { Sound (whole types.old s.old) }
    ensures { Step (whole types.old s.old) (serve_asked (system_in (whole types.old s.old)) (request code ops.now))
        (done types.new s.new result) }
{
    serve_coded(types, s, index_of(code, CODES), ops)
}

// The request at `at` (U6, U7).
fn serve_at(
    types: &mut [u8; TYPE_BYTES],
    s: &mut State,
    words: &[i64],
    at: usize,
) -> Result<Answer, Refusal>
    requires { Sound (whole types.old s.old) × (at < length words.now) }
    ensures { Step (whole types.old s.old) (serve_asked (system_in (whole types.old s.old)) (asked_at words.now at))
        (done types.new s.new result) }
{
    match operands_at(words, at) {
        Some(ops) => serve(types, s, words[at], ops),
        None => Err(Refusal::Form),
    }
}

// Each on the state that those before it left, as long as there is room for an outcome (U9): how many were served. Where no request was taken, the types are
// given back, every byte (Q14).
fn run_checked(
    types: &mut [u8; TYPE_BYTES],
    old: &[u8; TYPE_BYTES],
    s: &mut State,
    words: &[i64],
    answers: &mut [i64],
) -> usize
    requires { Sound (whole types.old s.old) × (old.now ≡ types.old) }
    ensures { Runs (whole types.old s.old) answers.old answers.new
        (ok (run_asked (system_in (whole types.old s.old)) (requests (room answers.old) words.now))) (over types.new s.new (Ok result)) }
{
    let most = answers.len() / OUTCOME;
    let mut any = false;
    let mut served = 0;
    let mut at = 0;
    while served < most && at < words.len() {
        let outcome = serve_at(types, s, words, at);
        any |= outcome.is_ok();
        put_outcome(answers, served * OUTCOME, outcome);
        served += 1;
        at = next(words, at);
    }
    if !any {
        *types = *old;
    }
    served
}

// On any state handed in: 2 before all else, and nothing is served (U1); else how many requests were.
pub fn run(
    types: &mut [u8; TYPE_BYTES],
    s: &mut State,
    words: &[i64],
    answers: &mut [i64],
) -> Result<usize, Refusal>
    ensures { Runs (whole types.old s.old) answers.old answers.new
        (run_handed (raw_state (whole types.old s.old)) (room answers.old) words.now) (over types.new s.new result) }
{
    if !state_check::state_fits(types, *s) {
        return Err(Refusal::OutOfRange);
    }
    let old = copied(*types);
    Ok(run_checked(types, &old, s, words, answers))
}
