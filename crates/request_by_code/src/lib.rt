// A request by its code and operands (U2 to U6), which the run's words, the script's lines and the C functions of single requests come down to. What it comes
// to is the definition `serve_asked` in specs/Coded.antt.
#![tactic(auto)]

ghost use Rattle.state_record.specs.Whole.{whole};
ghost use Rattle.state_record.specs.View.{system_in};
ghost use Rattle.state_record.specs.Sound.{Sound};
ghost use Rattle.request_common.specs.Served.{Step, done};
ghost use Rattle.spec_model.specs.Coded.{by_code};
ghost use Rattle.request_by_code.specs.Coded.{serve_asked};

use base_numbers::refusal::Refusal;
use request_common::Answer;
use request_operands::{ANSWER, CALL, MOVE, NEW};
use state_record::State;
use table_record::TYPE_BYTES;

// New: three operands (U3).
fn serve_new(types: &mut [u8; TYPE_BYTES], s: &mut State, ops: &[i64]) -> Result<Answer, Refusal>
    requires { Sound (whole types.old s.old) }
    ensures { Step (whole types.old s.old) (serve_asked (system_in (whole types.old s.old)) (by_code 0 ops.now))
        (done types.new s.new result) }
{
    if ops.len() != 3 {
        return Err(Refusal::Form);
    }
    request_new_move::new_step(types, s, ops[0], ops[1], ops[2])
}

// Move: four (U3).
fn serve_move(types: &mut [u8; TYPE_BYTES], s: &mut State, ops: &[i64]) -> Result<Answer, Refusal>
    requires { Sound (whole types.old s.old) }
    ensures { Step (whole types.old s.old) (serve_asked (system_in (whole types.old s.old)) (by_code 1 ops.now))
        (done types.new s.new result) }
{
    if ops.len() != 4 {
        return Err(Refusal::Form);
    }
    request_new_move::move_step(types, s, ops[0], ops[1], ops[2], ops[3])
}

// Call: three, and its arguments (U4). The step is called in two places, since the compiler makes what is called once a part of its caller: the stack of a
// call, the largest of the four requests', would be taken by every other request too.
fn serve_call(types: &mut [u8; TYPE_BYTES], s: &mut State, ops: &[i64]) -> Result<Answer, Refusal>
    requires { Sound (whole types.old s.old) }
    ensures { Step (whole types.old s.old) (serve_asked (system_in (whole types.old s.old)) (by_code 2 ops.now))
        (done types.new s.new result) }
{
    if ops.len() < 3 {
        return Err(Refusal::Form);
    }
    if ops.len() == 3 {
        return request_call::call_step(types, s, ops[0], ops[1], ops[2], &ops[..0]);
    }
    request_call::call_step(types, s, ops[0], ops[1], ops[2], &ops[3..])
}

// Answer: two operands and a value, or nothing (U5).
fn serve_answer(types: &mut [u8; TYPE_BYTES], s: &mut State, ops: &[i64]) -> Result<Answer, Refusal>
    requires { Sound (whole types.old s.old) }
    ensures { Step (whole types.old s.old) (serve_asked (system_in (whole types.old s.old)) (by_code 3 ops.now))
        (done types.new s.new result) }
{
    if ops.len() == 2 {
        return request_answer::answer_step(types, s, ops[0], ops[1], None);
    }
    if ops.len() != 3 {
        return Err(Refusal::Form);
    }
    request_answer::answer_step(types, s, ops[0], ops[1], Some(ops[2]))
}

// The request of a code and its operands: 1 where there is none such (U6). Every request is served by it.
// Kept: what may not change (`serve_coded` takes any code): the code is a number, since a word or a caller may name none.
pub fn serve_coded(
    types: &mut [u8; TYPE_BYTES],
    s: &mut State,
    k: usize,
    ops: &[i64],
) -> Result<Answer, Refusal>
    requires { Sound (whole types.old s.old) }
    ensures { Step (whole types.old s.old) (serve_asked (system_in (whole types.old s.old)) (by_code k ops.now))
        (done types.new s.new result) }
{
    match k {
        NEW => serve_new(types, s, ops),
        MOVE => serve_move(types, s, ops),
        CALL => serve_call(types, s, ops),
        ANSWER => serve_answer(types, s, ops),
        _ => Err(Refusal::Form),
    }
}
