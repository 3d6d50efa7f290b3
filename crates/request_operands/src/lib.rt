// The codes of the requests and their operands (U3 to U5), as the C functions of single requests list them.
#![tactic(auto)]

ghost use Rattle.std.specs.Prelude.{◌≡◌, true};
ghost use Rattle.request_operands.specs.Operands.{answer_operands, call_operands, Listed};

use table_record::Counts;

// The codes of the requests (U3 to U5), and how many there are.
// Kept: the C interface (a code is a number of a run's words, which may be any: U6, `by_code`).
pub const NEW: usize = 0;

pub const MOVE: usize = 1;

pub const CALL: usize = 2;

pub const ANSWER: usize = 3;

pub const CODES: usize = 4;

// The operands of a call in front of its arguments (U4).
const FIRST: usize = 3;

// The most operands of a call that are looked at: of its arguments, one more than a signature may have.
const OPERANDS: usize = FIRST + Counts::ARGUMENTS + 1;

// Kept: a rule (no heap, fixed memory).
#[derive(Clone, Copy)]
pub struct Operands {
    pub count: usize,
    pub items: [i64; OPERANDS],
}

// The operands of a call. A list of arguments that is longer than any signature is cut behind one too many, and refused with 15 as it would be whole (C4).
pub fn call_operands(subject: i64, cell: i64, method: i64, arguments: &[i64]) -> Operands
    ensures { Listed (call_operands subject cell method arguments.now) result }
{
    let mut items = [0i64; OPERANDS];
    items[0] = subject;
    items[1] = cell;
    items[2] = method;
    let n = arguments.len().min(Counts::ARGUMENTS + 1);
    let count = FIRST + n;
    items[FIRST..count].copy_from_slice(&arguments[..n]);
    Operands { count, items }
}

// How many operands an answer has: a third where a value is given (U5).
// Kept: the C interface (`given` is a number that C hands in).
pub fn answer_count(given: usize) -> usize
    ensures { result ≡ answer_operands given }
{
    if given == 0 { 2 } else { 3 }
}

// Whether so many operands of a code are an answer of nothing (U5).
pub fn is_nothing(code: usize, operands: usize) -> bool
    ensures { result ≡ true → (code ≡ 3) × (operands ≡ 2) }
{
    code == ANSWER && operands == 2
}
