// A request on a state that is handed in (Q13 to Q15), by its code and operands (U2 to U6): the entry point of a caller who keeps the state himself. It takes
// any state and any numbers: 2 where the state does not pass, before all else; then the step that the run and the script take too.
#![tactic(auto)]

ghost use Rattle.std.specs.Prelude.{◌≡◌, true, length};
ghost use Rattle.spec_model.specs.Check.{system_accepted};
ghost use Rattle.spec_model.specs.Coded.{by_code};
ghost use Rattle.state_record.specs.Whole.{whole};
ghost use Rattle.state_record.specs.View.{raw_state, system_in};
ghost use Rattle.state_record.specs.Sound.{Sound};
ghost use Rattle.request_common.specs.Served.{done};
ghost use Rattle.request_by_code.specs.Coded.{serve_asked};
ghost use Rattle.request_serve.specs.Serves.{ServesAsked};
ghost use Rattle.request_serve.specs.Known.{Known};
ghost use Rattle.table_record.specs.Layout.{types_size};

use base_numbers::refusal::Refusal;
use request_call::Plan;
use request_common::Answer;
use request_value::Met;
use state_record::State;
use table_record::TYPE_BYTES;

// An array that is held has its length, of a lent one nothing says it; the copy goes when this is inlined.
fn type_bytes(b: [u8; TYPE_BYTES])
    ensures { length b ≡ types_size }
{}

// The call that is left of a request by the types as they are: of a call whose arguments are all numbers (U4). Of the others there is none, or it is not asked.
fn planned(
    types: &[u8; TYPE_BYTES],
    s: &State,
    code: usize,
    ops: &[i64],
) -> Result<Option<Plan>, Refusal>
    requires { Sound (whole types.now s.now) }
    ensures { Known (whole types.now s.now) (serve_asked (system_in (whole types.now s.now)) (by_code code ops.now)) result }
{
    if code != request_operands::CALL || ops.len() < 3 {
        return Ok(None);
    }
    let p = request_call::plan_call(types, s, ops[0], ops[1], ops[2], &ops[3..])?;
    match p.met {
        Met::Reference => Ok(None),
        Met::Numbers => Ok(Some(p)),
    }
}

// A request that may store types: they are saved first, and given back where it is refused (Q14). It stays a function by itself, so that what is saved is on the
// stack of no other request.
#[inline(never)]
fn serve_saved(
    types: &mut [u8; TYPE_BYTES],
    s: &mut State,
    code: usize,
    ops: &[i64],
) -> Result<Answer, Refusal>
    requires { Sound (whole types.old s.old) × (system_accepted (raw_state (whole types.old s.old)) ≡ true) }
    ensures { ServesAsked (whole types.old s.old) (by_code code ops.now) (done types.new s.new result) }
{
    let old = request_common::copied(*types);
    let r = request_by_code::serve_coded(types, s, code, ops);
    request_common::give_back(types, &old, r);
    r
}

// An answer of nothing, whose operands are two (U5): whatever comes of it, no type is stored.
fn serve_nothing(
    types: &mut [u8; TYPE_BYTES],
    s: &mut State,
    ops: &[i64],
) -> Result<Answer, Refusal>
    requires { Sound (whole types.old s.old) × (system_accepted (raw_state (whole types.old s.old)) ≡ true) × (length ops.now ≡ 2) }
    ensures { ServesAsked (whole types.old s.old) (by_code 3 ops.now) (done types.new s.new result) }
{
    request_answer::answer_step(types, s, ops[0], ops[1], None)
}

// The request of a code and its operands: 1 where there is none such (U6). Refused, every byte of state and types is as it was (Q14). The types are saved where
// a type may be stored: not for an answer of nothing, nor for a call whose arguments are all numbers.
pub fn serve(
    types: &mut [u8; TYPE_BYTES],
    s: &mut State,
    code: usize,
    ops: &[i64],
) -> Result<Answer, Refusal>
    ensures { ServesAsked (whole types.old s.old) (by_code code ops.now) (done types.new s.new result) }
{
    if !state_check::state_fits(types, *s) {
        return Err(Refusal::OutOfRange);
    }
    type_bytes(*types);
    if request_operands::is_nothing(code, ops.len()) {
        return serve_nothing(types, s, ops);
    }
    match planned(types, s, code, ops)? {
        Some(p) => Ok(request_call::add_call(s, p.who, p.cell, p.method, p.adapters)),
        None => serve_saved(types, s, code, ops),
    }
}
