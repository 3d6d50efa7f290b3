// A line behind the sheet as a request (docs/SPEC.md P4 to P11). Contracts say what is read in the words of specs/Asked.antt.
#![tactic(auto)]

ghost use Rattle.std.specs.Prelude.{◌≡◌, ◌&&◌, cond, List, ℕ, ◌-◌, ◌≤◌, ◌<◌, ℤ, pos, negsuc, length, drop, Option, Some, None, IfSome};
ghost use Rattle.spec_sheet.specs.Lines.{same};
ghost use Rattle.script_read_request.specs.Asked.{half, positive, negative, integer, operand, leftover, request_by, request_line};
ghost use Rattle.script_read_request.specs.Read.{signed_by, integer_by, code_of, count_fits, Reads};

// The arguments that a line of a call may list (P7): the limit of the line, not that of signatures.
const LISTED: usize = 4;

// The most operands of a line: a call's subject, cell and method, and its arguments.
pub const OPERANDS: usize = 3 + LISTED;

// The request that a line's word names, with the number of its code (U3 to U5).
#[derive(Clone, Copy)]
pub enum Code {
    New = 0,
    Move = 1,
    Call = 2,
    Answer = 3,
}

// What a line asks: the request and its operands, the first `count` of `items`. Kept: fixed memory, no heap.
#[derive(Clone, Copy)]
pub struct Asked {
    pub code: Code,
    pub count: usize,
    pub items: [i64; OPERANDS],
}

// 2 to the 63rd
const HALF: usize = 9223372036854775808;

impl Code {
    pub fn number(self) -> usize
        ensures { result ≡ code_of self }
    {
        self as usize
    }
}

// The number n with no sign in front: past 64 bits it is none (P9).
fn unsigned(n: usize) -> Option<i64>
    ensures { (r : List ℕ) → signed_by result r ≡ positive n r }
{
    if HALF <= n {
        return None;
    }
    Some(n as i64)
}

// The number n behind a `-`: neither past 64 bits nor `-0` (P9). It is one below 0 less n - 1: 2 to the 63rd itself has no positive number of 64 bits.
fn negated(n: usize) -> Option<i64>
    ensures { (r : List ℕ) → signed_by result r ≡ negative n r }
{
    if n == 0 {
        return None;
    }
    if HALF < n {
        return None;
    }
    let k = (n - 1) as i64;
    Some(-1 - k)
}

// The signed number that stands at `at` (P9), and where the bytes behind it start.
fn integer_at(l: &[u8], at: usize) -> Option<(i64, usize)>
    requires { at ≤ length l.now }
    ensures is { integer_by l.now result ≡ integer (drop at l.now) }
    ensures within { IfSome result (λ p. p.1 ≤ length l.now) }
{
    if at == l.len() {
        return None;
    }
    if l[at] == b'-' {
        let (n, next) = text_read::number_at(l, at + 1)?;
        let v = negated(n)?;
        return Some((v, next));
    }
    let (n, next) = text_read::number_at(l, at)?;
    let v = unsigned(n)?;
    Some((v, next))
}

// The operand that stands at `at`, behind one space (P10).
fn operand_at(l: &[u8], at: usize) -> Option<(i64, usize)>
    requires { at ≤ length l.now }
    ensures is { integer_by l.now result ≡ operand (drop at l.now) }
    ensures within { IfSome result (λ p. p.1 ≤ length l.now) }
{
    if at == l.len() {
        return None;
    }
    if l[at] != b' ' {
        return None;
    }
    integer_at(l, at + 1)
}

// Whether what stands behind the operands is right: nothing (P10), but ` -` behind the two of an answer that gives nothing (P8).
fn ends(l: &[u8], at: usize, code: Code, count: usize) -> bool
    requires { at ≤ length l.now }
    ensures { (ws : List ℤ) → length ws ≡ count → result ≡ same (leftover (code_of code) ws) (drop at l.now) }
{
    match (code, count) {
        (Code::Answer, 2) => text_read::is_word(&l[at..], b" -"),
        _ => at == l.len(),
    }
}

// Whether a request can have so many operands (P5 to P8).
fn fits(code: Code, count: usize) -> bool
    ensures { result ≡ count_fits (code_of code) count }
{
    match code {
        Code::New => count == 3,
        Code::Move => count == 4,
        Code::Call => 3 <= count,
        Code::Answer => count == 2 || count == 3,
    }
}

// What a line asks whose operands end at `at`: something where it ends there, and their count is one of the code's.
fn right_at(l: &[u8], at: usize, a: Asked) -> Option<Asked>
    requires { at ≤ length l.now }
    ensures { (ws : List ℤ) → length ws ≡ a.count
        → result ≡ cond (same (leftover (code_of a.code) ws) (drop at l.now) && count_fits (code_of a.code) a.count) (Some a) None }
{
    (ends(l, at, a.code, a.count) && fits(a.code, a.count)).then_some(a)
}

// The request of a code by what stands behind its word: operands, as many as there are and a request can have, and the line's end.
fn request_at(l: &[u8], at: usize, code: Code) -> Option<Asked>
    requires { at ≤ length l.now }
    ensures { Reads (request_by (code_of code) (drop at l.now)) result }
{
    let mut i = at;
    let mut items = [0; OPERANDS];
    for count in 0..OPERANDS {
        let Some((v, next)) = operand_at(l, i) else {
            return right_at(l, i, Asked { code, count, items });
        };
        items[count] = v;
        i = next;
    }
    let count = OPERANDS;
    right_at(l, i, Asked { code, count, items })
}

// The request of a line, by the word that it begins with (P4 to P8); none where it is malformed.
pub fn read_request(l: &[u8]) -> Option<Asked>
    ensures { Reads (request_line l.now) result }
{
    if text_read::begins(l, b"do=new") {
        return request_at(l, 6, Code::New);
    }
    if text_read::begins(l, b"do=move") {
        return request_at(l, 7, Code::Move);
    }
    if text_read::begins(l, b"do=call") {
        return request_at(l, 7, Code::Call);
    }
    if text_read::begins(l, b"do=answer") {
        return request_at(l, 9, Code::Answer);
    }
    None
}
