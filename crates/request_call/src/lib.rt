// The request call as a step on a sound state (C1 to C20). A refusal gives back the state that was handed in, so what earlier arguments made on the way is gone
// (C20).
#![tactic(auto)]

ghost use Rattle.std.specs.Prelude.{◌≡◌, not, ◌||◌, List, ℕ, ◌≤◌, ◌<◌, ℤ, get_or};
ghost use Rattle.spec_model.specs.Basics.{ok, named};
ghost use Rattle.spec_model.specs.Table.{type_at, method_at, is_ref};
ghost use Rattle.spec_model.specs.Check.{method_of};
ghost use Rattle.spec_model.specs.Requests.{no_cell, pair, held, arguments_held, with_call, call_request, max_calls, made_by};
ghost use Rattle.table_record.specs.Store.{table_in, raw_method};
ghost use Rattle.table_record.specs.Limits.{Limits};
ghost use Rattle.state_record.specs.Whole.{whole};
ghost use Rattle.state_record.specs.View.{cell_of, cells_in, calls_in, system_in};
ghost use Rattle.state_record.specs.Sound.{MayCall, Sound};
ghost use Rattle.request_common.specs.Served.{Step, done};
ghost use Rattle.request_value.specs.Sent.{arguments_of};
ghost use Rattle.request_call.specs.Called.{new_call, call_through, call_held, Planned};

use base_numbers::index_of;
use base_numbers::refusal::Refusal;
use request_common::Answer;
use request_value::Met;
use state_record::{Call, Calls, Cell, State};
use table_record::{Counts, Head, Method, TYPE_BYTES};

// Method m of type t; a number type has none (T19).
fn method_at(types: &[u8; TYPE_BYTES], c: Counts, t: usize, m: usize) -> Method
    requires { Limits c × (t < c.types) × (m < c.methods) }
    ensures { (l : List ℕ) → method_of (raw_method result) ≡ method_at (table_in types.now l c) t m }
{
    let h = table_record::get_head(types, t);
    if h.rep != Head::REF {
        return Method::empty();
    }
    table_record::get_method(types, t, m)
}

// A value for type a of the signature: a reference is one that the subject holds (C5).
fn argument_held(types: &[u8; TYPE_BYTES], s: &State, who: usize, a: usize, v: i64) -> bool
    requires { Sound (whole types.now s.now) }
    ensures { (subject : ℤ) → named subject ≡ who
        → result ≡ not (is_ref (type_at (system_in (whole types.now s.now)).table a).rep) || held (system_in (whole types.now s.now)) subject v }
{
    if !table_record::names_ref(types, s.counts.types, a) {
        return true;
    }
    request_common::is_held(s.cells, who, v)
}

// As many values as the signature has arguments, and each reference held (C4, C5).
fn arguments_held(types: &[u8; TYPE_BYTES], s: &State, who: usize, x: Method, vs: &[i64]) -> bool
    requires { Sound (whole types.now s.now) }
    ensures { (subject : ℤ) → named subject ≡ who
        → result ≡ arguments_held (system_in (whole types.now s.now)) subject (arguments_of x) vs.now }
{
    for (i, v) in vs.iter().enumerate() {
        let Some(a) = crossing_targets::argument_in(x, i) else {
            return false;
        };
        if !argument_held(types, s, who, usize::from(a), *v) {
            return false;
        }
    }
    crossing_targets::argument_in(x, vs.len()).is_none()
}

// How many of the calls are this subject's (C7).
fn made_by(js: &Calls, who: usize) -> usize
    requires { js.now.count ≤ max_calls }
    ensures { result ≡ made_by who (calls_in js.now) }
{
    let mut made = 0;
    for j in 0..js.count {
        if usize::from(js.list[j].caller) == who {
            made += 1;
        }
    }
    made
}

// One more call (C18), and its answer (C19).
pub fn add_call(s: &mut State, who: usize, k: usize, m: usize, adapters: usize) -> Answer
    requires { (s.old.calls.count < max_calls) × (who < 256) × (k < 256) × (m < 256) }
    ensures { (b : List ℕ) → Sound (whole b s.old) → MayCall (whole b s.old) who → k < s.old.cells.count → m < s.old.counts.methods
        → Step (whole b s.old) (ok (with_call (system_in (whole b s.old)) (new_call who k m), pair s.old.calls.count adapters)) (done b s.new (Ok result)) }
{
    let first = s.calls.count;
    let c = Call {
        caller: who as u8,
        cell: k as u8,
        method: m as u8,
        answered: false,
    };
    s.calls = s.calls.add(c);
    Answer::Pair {
        first,
        second: adapters,
    }
}

// The call of method m, whose signature is x, through cell k (C9, C12, C18, C19). The arguments are sent on a copy: a refusal leaves the state as it was (C20).
fn call_through(
    types: &mut [u8; TYPE_BYTES],
    s: &mut State,
    who: usize,
    k: usize,
    m: usize,
    x: Method,
    vs: &[i64],
) -> Result<Answer, Refusal>
    requires { Sound (whole types.old s.old) × MayCall (whole types.old s.old) who × (who < 256) × (k < s.old.cells.count) × (m < s.old.counts.methods) }
    ensures { Step (whole types.old s.old) (call_through (system_in (whole types.old s.old)) who k m (arguments_of x) vs.now)
        (done types.new s.new result) }
{
    let c = s.cells.at(k);
    let p = usize::from(c.place);
    let owner = state_places::base_owner(s.places, p);
    let layers = state_places::layers_of(s.places, p);
    let adapters = state_places::adapters_of(s.places, p);
    let ls = crossing_targets::call_layers(c.ty, layers);
    let mut sent = *s;
    request_value::send_arguments(types, &mut sent, owner, ls, m, x, vs)?;
    let answer = add_call(&mut sent, who, k, m, adapters);
    *s = sent;
    Ok(answer)
}

// A call that has passed all tests of its operands, before anything is sent: the call that it is, its adapters and its signature; and what its arguments are
// met as. Where all are numbers they have passed, and what is left is to add the call.
#[derive(Clone, Copy)]
pub struct Plan {
    pub who: usize,
    pub cell: usize,
    pub method: usize,
    pub adapters: usize,
    pub signature: Method,
    pub met: Met,
}

// The numbers among the arguments of a call of method m, whose signature is x, through cell k, which is c (C9, C14).
fn plan_numbers(
    types: &[u8; TYPE_BYTES],
    s: &State,
    who: usize,
    k: usize,
    c: Cell,
    m: usize,
    x: Method,
    vs: &[i64],
) -> Result<Plan, Refusal>
    requires { Sound (whole types.now s.now) × MayCall (whole types.now s.now) who × (who < 256) × (k < s.now.cells.count) × (m < s.now.counts.methods)
        × (cell_of c ≡ get_or (cells_in s.now.cells) k no_cell) }
    ensures { Planned (whole types.now s.now) vs.now
        (call_through (system_in (whole types.now s.now)) who k m (arguments_of x) vs.now) result }
{
    let layers = state_places::layers_of(s.places, usize::from(c.place));
    let ls = crossing_targets::call_layers(c.ty, layers);
    let met = request_value::pass_numbers(types, s.counts, ls, m, x, vs)?;
    Ok(Plan {
        who,
        cell: k,
        method: m,
        adapters: layers.count - 1,
        signature: x,
        met,
    })
}

// The tests that are left once the subject, its cell and the method are known (C3, C4, C5, C7).
fn plan_held(
    types: &[u8; TYPE_BYTES],
    s: &State,
    who: usize,
    k: usize,
    m: usize,
    vs: &[i64],
) -> Result<Plan, Refusal>
    requires { Sound (whole types.now s.now) × (who < s.now.counts.subjects) × (k < s.now.cells.count) × (m < s.now.counts.methods) }
    ensures { (subject : ℤ) → named subject ≡ who
        → Planned (whole types.now s.now) vs.now (call_held (system_in (whole types.now s.now)) subject k m vs.now) result }
{
    let c = s.cells.at(k);
    let x = method_at(types, s.counts, usize::from(c.ty), m);
    if x.state != Method::AVAIL {
        return Err(Refusal::NotCallable);
    }
    if !arguments_held(types, s, who, x, vs) {
        return Err(Refusal::WrongValues);
    }
    if State::CALLS_EACH <= made_by(&s.calls, who) {
        return Err(Refusal::CallsFull);
    }
    plan_numbers(types, s, who, k, c, m, x, vs)
}

// All that is known of a call by the types as they are (C1 to C5, C7), so that who has to give them back on a refusal saves them only where something is sent.
pub fn plan_call(
    types: &[u8; TYPE_BYTES],
    s: &State,
    subject: i64,
    cell: i64,
    method: i64,
    arguments: &[i64],
) -> Result<Plan, Refusal>
    requires { Sound (whole types.now s.now) }
    ensures { Planned (whole types.now s.now) arguments.now
        (call_request (system_in (whole types.now s.now)) subject cell method arguments.now) result }
{
    let counts = s.counts;
    if !request_common::is_subject(counts, subject) {
        return Err(Refusal::UnknownSubject);
    }
    let who = index_of(subject, counts.subjects);
    if !request_common::is_held(s.cells, who, cell) {
        return Err(Refusal::NotHeld);
    }
    let k = index_of(cell, s.cells.count);
    let m = index_of(method, counts.methods);
    if counts.methods <= m {
        return Err(Refusal::NotCallable);
    }
    plan_held(types, s, who, k, m, arguments)
}

// Call (C).
pub fn call_step(
    types: &mut [u8; TYPE_BYTES],
    s: &mut State,
    subject: i64,
    cell: i64,
    method: i64,
    arguments: &[i64],
) -> Result<Answer, Refusal>
    requires { Sound (whole types.old s.old) }
    ensures { Step (whole types.old s.old)
        (call_request (system_in (whole types.old s.old)) subject cell method arguments.now) (done types.new s.new result) }
{
    let p = plan_call(types, s, subject, cell, method, arguments)?;
    match p.met {
        Met::Reference => call_through(types, s, p.who, p.cell, p.method, p.signature, arguments),
        Met::Numbers => Ok(add_call(s, p.who, p.cell, p.method, p.adapters)),
    }
}
