// The request answer as a step on a sound state (A1 to A13). A refusal gives back the state that was handed in.
#![tactic(auto)]

ghost use Rattle.std.specs.Prelude.{◌≡◌, List, ℕ, ◌≤◌, ◌<◌, ℤ};
ghost use Rattle.spec_model.specs.Basics.{ok, named};
ghost use Rattle.spec_model.specs.Requests.{due_for, answers_met, give, with_answer, answer_request, max_calls};
ghost use Rattle.crossing_targets.specs.Targets.{option_of};
ghost use Rattle.state_record.specs.Whole.{whole};
ghost use Rattle.state_record.specs.View.{system_in};
ghost use Rattle.state_record.specs.Sound.{Sound};
ghost use Rattle.crossing_targets.specs.Targets.{targets_in, max_layers};
ghost use Rattle.request_common.specs.Served.{result_of, Step, done};
ghost use Rattle.request_answer.specs.Given.{Keeps};
ghost use Rattle.request_answer.specs.Parts.{give_reference, give_value, answer_call, Called};

use base_numbers::index_of;
use base_numbers::refusal::Refusal;
use crossing_targets::{Slot, Targets};
use request_common::Answer;
use state_record::{Call, Cell, State};
use table_record::TYPE_BYTES;

// Call j is answered (A11), and the request with it (A12).
fn answered(s: &mut State, j: usize, answer: Answer) -> Answer
    requires { (j < s.old.calls.count) × (s.old.calls.count ≤ max_calls) }
    ensures { (b : List ℕ) → Sound (whole b s.old)
        → Step (whole b s.old) (ok (with_answer (system_in (whole b s.old)) j, result_of answer)) (done b s.new (Ok result)) }
{
    s.calls = s.calls.answered(j);
    answer
}

// The answer types of the layers, from the class's outward (A7).
fn answers_met(types: &[u8; TYPE_BYTES], s: &State, j: usize, x: Call, c: Cell) -> Targets
    requires { Sound (whole types.now s.now) × Called (whole types.now s.now) j x c }
    ensures { (targets_in result ≡ answers_met (system_in (whole types.now s.now)) j) × (result.count ≤ max_layers) }
{
    let layers = state_places::layers_of(s.places, usize::from(c.place));
    let ls = crossing_targets::call_layers(c.ty, layers);
    crossing_targets::reversed(crossing_targets::targets_of(
        types,
        s.counts,
        usize::from(x.method),
        Slot::Answer,
        ls,
    ))
}

// A reference crosses to the caller, and then the call is answered (A8, A10, A11).
fn give_reference(
    types: &mut [u8; TYPE_BYTES],
    s: &mut State,
    j: usize,
    r: usize,
    v: i64,
    targets: Targets,
) -> Result<Answer, Refusal>
    requires { Sound (whole types.old s.old) × (j < s.old.calls.count) × (0 < s.old.places.count) × (0 < s.old.counts.types) × (r < 256)
        × (targets.count ≤ max_layers) }
    ensures { Step (whole types.old s.old) (give_reference (system_in (whole types.old s.old)) j r v (targets_in targets))
        (done types.new s.new result) }
{
    let answer = request_value::send(types, s, r, v, targets)?;
    Ok(answered(s, j, answer))
}

// A value v where type a is due (A6 to A12). It stays a function by itself: an answer of nothing has none of it on the stack.
#[inline(never)]
fn give_value(
    types: &mut [u8; TYPE_BYTES],
    s: &mut State,
    who: usize,
    j: usize,
    x: Call,
    c: Cell,
    a: usize,
    v: i64,
) -> Result<Answer, Refusal>
    requires { Sound (whole types.old s.old) × Called (whole types.old s.old) j x c }
    ensures { (subject : ℤ) → named subject ≡ who
        → Step (whole types.old s.old) (give_value (system_in (whole types.old s.old)) subject j a v) (done types.new s.new result) }
{
    let counts = s.counts;
    let targets = answers_met(types, s, j, x, c);
    if table_record::names_ref(types, counts.types, a) {
        if !request_common::is_held(s.cells, who, v) {
            return Err(Refusal::WrongValues);
        }
        let caller = usize::from(x.caller);
        return give_reference(types, s, j, caller, v, targets);
    }
    crossing_targets::pass(types, counts, v, targets)?;
    Ok(answered(s, j, Answer::Number(v)))
}

// What is due and what is given (A4, A5, A13).
fn give(
    types: &mut [u8; TYPE_BYTES],
    s: &mut State,
    who: usize,
    j: usize,
    x: Call,
    c: Cell,
    given: Option<i64>,
) -> Result<Answer, Refusal>
    requires { Sound (whole types.old s.old) × Called (whole types.old s.old) j x c }
    ensures { ((subject : ℤ) → named subject ≡ who
        → Step (whole types.old s.old)
        (give (system_in (whole types.old s.old)) subject j (due_for (system_in (whole types.old s.old)) j) (option_of given))
        (done types.new s.new result))
        × Keeps given types.old types.new }
{
    let due = crossing_targets::target_at(
        types,
        s.counts,
        usize::from(x.method),
        Slot::Answer,
        usize::from(c.ty),
    );
    match (due, given) {
        (Some(a), Some(v)) => give_value(types, s, who, j, x, c, usize::from(a), v),
        (None, None) => Ok(answered(s, j, Answer::Nothing)),
        _ => Err(Refusal::WrongValues),
    }
}

// The tests that are left once the subject is known and j is the number of a call (A2, A3).
fn answer_call(
    types: &mut [u8; TYPE_BYTES],
    s: &mut State,
    who: usize,
    j: usize,
    given: Option<i64>,
) -> Result<Answer, Refusal>
    requires { Sound (whole types.old s.old) × (j < s.old.calls.count) }
    ensures { ((subject : ℤ) → named subject ≡ who
        → Step (whole types.old s.old) (answer_call (system_in (whole types.old s.old)) subject j (option_of given)) (done types.new s.new result))
        × Keeps given types.old types.new }
{
    let x = s.calls.at(j);
    let c = s.cells.at(usize::from(x.cell));
    let owner = state_places::base_owner(s.places, usize::from(c.place));
    if owner != who {
        return Err(Refusal::NotHeld);
    }
    if x.answered {
        return Err(Refusal::AnsweredAlready);
    }
    give(types, s, who, j, x, c, given)
}

// Answer (A): a value, which is the number of a cell where a reference is due, or nothing.
pub fn answer_step(
    types: &mut [u8; TYPE_BYTES],
    s: &mut State,
    subject: i64,
    call: i64,
    given: Option<i64>,
) -> Result<Answer, Refusal>
    requires { Sound (whole types.old s.old) }
    ensures { Step (whole types.old s.old) (answer_request (system_in (whole types.old s.old)) subject call (option_of given))
        (done types.new s.new result)
        × Keeps given types.old types.new }
{
    let counts = s.counts;
    if !request_common::is_subject(counts, subject) {
        return Err(Refusal::UnknownSubject);
    }
    let who = index_of(subject, counts.subjects);
    let j = index_of(call, s.calls.count);
    if s.calls.count <= j {
        return Err(Refusal::NotHeld);
    }
    answer_call(types, s, who, j, given)
}
