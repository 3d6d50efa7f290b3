// The `m=` lines of a sheet (docs/SPEC.md S26). The tests for 1 come first, then those for 2, over the whole line (S5). A function `read_..` reads the bytes of
// one line, `next_method` the next line of the text. `is` says what is read, `exact` that the record is the one that stands for it: a state by its own code,
// unused slots 0 (B13). The other lines are read by crate `sheet_read_line`.
#![tactic(auto)]

ghost use Rattle.std.specs.Prelude.{◌≡◌, true, false, ◌≤◌, ◌<◌, length, drop, IfOk, IfSome};
ghost use Rattle.spec_model.specs.Table.{bare, permit, max_sheet_types};
ghost use Rattle.spec_model.specs.Check.{state_of, answer_of};
ghost use Rattle.table_record.specs.Store.{raw_method, MethodExact};
ghost use Rattle.spec_sheet.specs.Lines.{split, line};
ghost use Rattle.spec_sheet.specs.Sheet.{arguments, answer, signature, method_line};
ghost use Rattle.base_numbers.specs.Refusal.{res_by};
ghost use Rattle.text_read.specs.View.{scan_by, scan_numbers, reading_by};
ghost use Rattle.sheet_read_method.specs.View.{method_is, ArgsWithin, bare_line, Opens};

use base_numbers::refusal::Refusal;
use sheet_read_line::all_below;
use table_record::{Counts, Method};
use text_cursor::{Cursor, between, next_line};
use text_read::{Malformed, Numbers, begins, is_word, no_numbers, number_at, numbers_at, placed};

// The arguments of a signature, to the bracket that closes them (S26). One too many is a fault of form (S11).
fn args_at(l: &[u8], at: usize) -> Option<Numbers>
    requires { at ≤ length l.now }
    ensures is { scan_numbers l.now result ≡ arguments (drop at l.now) }
    ensures within { IfSome result (ArgsWithin (length l.now)) }
{
    if at == l.len() {
        return None;
    }
    if l[at] == b')' {
        return Some(no_numbers(at + 1));
    }
    let t = numbers_at(l, at, Counts::ARGUMENTS)?;
    let e = t.next;
    if e == l.len() || l[e] != b')' {
        return None;
    }
    Some(Numbers { next: e + 1, ..t })
}

// The answer of a signature: 0 for `-`, else the number plus 1 (B10).
fn answer_at(l: &[u8], at: usize) -> Option<(usize, usize)>
    requires { at ≤ length l.now }
    ensures { scan_by answer_of l.now result ≡ answer (drop at l.now) }
{
    if at == l.len() {
        return None;
    }
    if l[at] == b'-' {
        return Some((0, at + 1));
    }
    let (n, next) = number_at(l, at)?;
    Some((n + 1, next))
}

// A method without a signature.
fn unsigned(state: u8) -> Method
    requires { (permit (state_of state) ≡ false) × (state < 4) }
    ensures is { method_is result ≡ bare (state_of state) }
    ensures exact { MethodExact (raw_method result) }
{
    Method {
        state,
        ..Method::empty()
    }
}

// A signature, from `at` on, of a sheet with n types (S26): a number that isn't below n is 2 (S29).
fn read_signature(l: &[u8], at: usize, state: u8, n: usize) -> Result<Method, Refusal>
    requires { (at ≤ length l.now) × (n ≤ max_sheet_types) × (permit (state_of state) ≡ true) }
    ensures is { res_by method_is result ≡ signature n (state_of state) (drop at l.now) }
    ensures exact { IfOk result (λ m. MethodExact (raw_method m)) }
{
    let t = args_at(l, at).ok_or(Refusal::Form)?;
    let (a, next) = answer_at(l, t.next).ok_or(Refusal::Form)?;
    if next < l.len() {
        return Err(Refusal::Form);
    }
    if !all_below(t, n) || n < a {
        return Err(Refusal::OutOfRange);
    }
    Ok(Method {
        state,
        count: t.count as u8,
        args: [t.first as u8, t.second as u8, t.third as u8, t.fourth as u8],
        answer: a as u8,
    })
}

// How an `m=` line begins: behind `avail(` and `optional(` a signature starts; the state, and where in the line.
fn opened(l: &[u8]) -> Option<(u8, usize)>
    ensures { Opens l.now result }
{
    if begins(l, b"m=avail(") {
        return Some((Method::AVAIL, 8));
    }
    if begins(l, b"m=optional(") {
        return Some((Method::OPTIONAL, 11));
    }
    None
}

// An `m=` line without a signature.
fn read_bare(l: &[u8]) -> Result<Method, Refusal>
    ensures is { res_by method_is result ≡ bare_line l.now }
    ensures exact { IfOk result (λ m. MethodExact (raw_method m)) }
{
    if is_word(l, b"m=denied") {
        return Ok(unsigned(Method::DENIED));
    }
    if is_word(l, b"m=unavail") {
        return Ok(unsigned(Method::UNAVAIL));
    }
    Err(Refusal::Form)
}

// An `m=` line of a sheet with n types (S26).
fn read_method(l: &[u8], n: usize) -> Result<Method, Refusal>
    requires { n ≤ max_sheet_types }
    ensures is { res_by method_is result ≡ method_line n l.now }
    ensures exact { IfOk result (λ m. MethodExact (raw_method m)) }
{
    match opened(l) {
        None => read_bare(l),
        Some((state, at)) => read_signature(l, at, state, n),
    }
}

pub fn next_method(s: &[u8], c: Cursor, n: usize) -> Result<(Method, Cursor), Malformed>
    requires { n ≤ max_sheet_types }
    ensures is { reading_by method_is s.now result ≡ line (method_line n) c.at (split (drop c.at s.now)) }
    ensures exact { IfOk result (λ r. MethodExact (raw_method r.0)) }
{
    let d = next_line(s, c);
    placed(read_method(between(s, c, d), n), c, d)
}
