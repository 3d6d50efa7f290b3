// Words, decimals and what becomes of a line (docs/SPEC.md S20, S21), for every program that reads text. Crate `text_cursor` finds the lines.
// Contracts say what is read in the words of crate `spec_sheet`: scans of a line, and readings of the lines from a byte offset on (specs/View.antt).
#![tactic(auto)]

ghost use Rattle.std.specs.Prelude.{◌≡◌, [], ◌+◌, ◌*◌, ◌≤◌, ◌<◌, length, set, drop, IfOk, OnOk, IfSome};
ghost use Rattle.base_numbers.specs.Refusal.{res_by};
ghost use Rattle.spec_sheet.specs.Lines.{split, line, starts, same};
ghost use Rattle.spec_sheet.specs.Numbers.{took, top, limit, digits, number, numbers};
ghost use Rattle.spec_sheet.specs.Sheet.{number_line};
ghost use Rattle.text_read.specs.View.{scan_by, scan_numbers, ScanWithin, reading_by, placed_by, items_of, numbers_of, NumbersWithin, no_numbers, max_numbers};

use base_numbers::refusal::Refusal;
use text_cursor::{Cursor, between, next_line};

// Up to four numbers with commas between, scanned: how many, the numbers, and where the bytes behind them start. Those that are not there are 0.
// They are no array: what is stored by an index and then read as a whole has to wait for its stores.
#[derive(Clone, Copy)]
pub struct Numbers {
    pub count: usize,
    pub first: usize,
    pub second: usize,
    pub third: usize,
    pub fourth: usize,
    pub next: usize,
}

// A line that is refused: why, and the offset at which it begins (S31).
#[derive(Clone, Copy, Debug, PartialEq, Eq)]
pub struct Malformed {
    pub refusal: Refusal,
    pub at: usize,
}

// A larger number counts as this one, so that digits of any length are read without overflow (S2).
pub const LIMIT: usize = 9223372036854775809;

// Ten times this number and nine more is the limit.
const TENTH: usize = 922337203685477580;

// Whether a line begins with a word.
pub fn begins(l: &[u8], word: &[u8]) -> bool
    ensures { result ≡ starts word.now l.now }
{
    l.starts_with(word)
}

// Whether a line is a word.
pub fn is_word(l: &[u8], word: &[u8]) -> bool
    ensures { result ≡ same word.now l.now }
{
    word == l
}

// A digit more behind those that made n.
fn more(n: usize, d: usize) -> usize
    requires { d < 10 }
    ensures { result ≡ limit (n * 10 + d) }
{
    if TENTH < n {
        return LIMIT;
    }
    n * 10 + d
}

// The digits from `at` on, behind those that made a: the number, and where the bytes behind it start.
fn digits_at(l: &[u8], at: usize, a: usize) -> (usize, usize)
    requires { (at ≤ length l.now) × (a ≤ top) }
    ensures is { took result.0 (drop result.1 l.now) ≡ digits a (drop at l.now) }
    ensures within { (result.1 ≤ length l.now) × (result.0 ≤ top) }
{
    let mut n = a;
    for i in at..l.len() {
        let b = l[i];
        if !b.is_ascii_digit() {
            return (n, i);
        }
        n = more(n, usize::from(b - b'0'));
    }
    (n, l.len())
}

// The number that stands at `at`, and where the bytes behind it start. A 0 is the whole number: what follows it is not its digit (S3).
pub fn number_at(l: &[u8], at: usize) -> Option<(usize, usize)>
    requires { at ≤ length l.now }
    ensures is { scan_by (λ n. n) l.now result ≡ number (drop at l.now) }
    ensures within { ScanWithin (length l.now) result }
{
    if at == l.len() {
        return None;
    }
    let b = l[at];
    if b == b'0' {
        return Some((0, at + 1));
    }
    if !b.is_ascii_digit() {
        return None;
    }
    Some(digits_at(l, at + 1, usize::from(b - b'0')))
}

// no numbers: none is read yet
pub fn no_numbers(next: usize) -> Numbers
    ensures { result ≡ no_numbers next }
{
    Numbers {
        count: 0,
        first: 0,
        second: 0,
        third: 0,
        fourth: 0,
        next,
    }
}

// One number more, behind which the bytes go on at `next`.
fn with_number(t: Numbers, n: usize, next: usize) -> Numbers
    requires { t.count < max_numbers }
    ensures { (items_of result ≡ set (items_of t) t.count n) × (result.count ≡ t.count + 1) × (result.next ≡ next) }
{
    let mut r = t;
    r.count = t.count + 1;
    r.next = next;
    match t.count {
        0 => r.first = n,
        1 => r.second = n,
        2 => r.third = n,
        _ => r.fourth = n,
    }
    r
}

// One number or more with commas between, at most max: one too many is a fault of form (S11).
pub fn numbers_at(l: &[u8], at: usize, max: usize) -> Option<Numbers>
    requires { (at ≤ length l.now) × (max ≤ max_numbers) }
    ensures is { scan_numbers l.now result ≡ numbers max [] (drop at l.now) }
    ensures within { IfSome result (NumbersWithin (length l.now) max) }
{
    let mut i = at;
    let mut t = no_numbers(at);
    while t.count < max {
        let (n, next) = number_at(l, i)?;
        t = with_number(t, n, next);
        if next == l.len() || l[next] != b',' {
            return Some(t);
        }
        i = next + 1;
    }
    None
}

// What one line gave, with the cursor d behind it: a line that is refused isn't passed, and is told by its offset (S31).
pub fn placed<T>(v: Result<T, Refusal>, c: Cursor, d: Cursor) -> Result<(T, Cursor), Malformed>
    ensures { result ≡ placed_by v c d }
{
    match v {
        Ok(x) => Ok((x, d)),
        Err(refusal) => Err(Malformed { refusal, at: c.at }),
    }
}

// A line of a key and one number from low to high (S29).
pub fn read_number(l: &[u8], key: &[u8], low: usize, high: usize) -> Result<usize, Refusal>
    ensures is { res_by (λ n. n) result ≡ number_line key.now low high l.now }
    ensures within { IfOk result (λ n. n ≤ high) }
{
    if !begins(l, key) {
        return Err(Refusal::Form);
    }
    let (n, next) = number_at(l, key.len()).ok_or(Refusal::Form)?;
    if next < l.len() {
        return Err(Refusal::Form);
    }
    if n < low || high < n {
        return Err(Refusal::OutOfRange);
    }
    Ok(n)
}

// The next line: a key and one number from low to high.
pub fn next_number(
    s: &[u8],
    c: Cursor,
    key: &[u8],
    low: usize,
    high: usize,
) -> Result<(usize, Cursor), Malformed>
    ensures is { reading_by (λ n. n) s.now result
        ≡ line (number_line key.now low high) c.at (split (drop c.at s.now)) }
    ensures within { IfOk result (λ r. r.0 ≤ high) }
{
    let d = next_line(s, c);
    placed(read_number(between(s, c, d), key, low, high), c, d)
}
