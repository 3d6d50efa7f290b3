// The line kinds of a sheet but those of one number and those of a method (docs/SPEC.md S22, S24, S25). In each the tests for 1 come first, then those for 2,
// then those for 3, over the whole line (S5). A function `read_..` reads the bytes of one line, a function `next_..` the next line of the text. `is` says what
// is read, `exact` that the record is the one that stands for it: an unused slot 0 (B13).
#![tactic(auto)]

ghost use Rattle.std.specs.Prelude.{◌≡◌, ◌≤◌, drop, IfOk};
ghost use Rattle.spec_model.specs.Basics.{all};
ghost use Rattle.spec_model.specs.Table.{max_categories};
ghost use Rattle.spec_model.specs.Check.{rep_of};
ghost use Rattle.spec_sheet.specs.Lines.{split, line};
ghost use Rattle.spec_sheet.specs.Sheet.{rep_line, own_line, end_line, under_line, below};
ghost use Rattle.base_numbers.specs.Refusal.{res_by};
ghost use Rattle.text_read.specs.View.{reading_by, numbers_of, max_numbers};
ghost use Rattle.sheet_read_line.specs.View.{broader_in, LinksExact};

use base_numbers::refusal::Refusal;
use table_record::{Counts, Head, Links};
use text_cursor::{Cursor, between, next_line};
use text_read::{Malformed, Numbers, begins, is_word, numbers_at, placed};

// A `rep=` line (S25), as the code that a type's record has for it; another word is 1.
fn read_rep(l: &[u8]) -> Result<u8, Refusal>
    ensures is { res_by rep_of result ≡ rep_line l.now }
    ensures within { IfOk result (λ n. n ≤ 2) }
{
    if is_word(l, b"rep=ref") {
        return Ok(Head::REF);
    }
    if is_word(l, b"rep=w32") {
        return Ok(Head::W32);
    }
    if is_word(l, b"rep=w64") {
        return Ok(Head::W64);
    }
    Err(Refusal::Form)
}

pub fn next_rep(s: &[u8], c: Cursor) -> Result<(u8, Cursor), Malformed>
    ensures is { reading_by rep_of s.now result ≡ line rep_line c.at (split (drop c.at s.now)) }
    ensures within { IfOk result (λ r. r.0 ≤ 2) }
{
    let d = next_line(s, c);
    placed(read_rep(between(s, c, d)), c, d)
}

// An `own=` line (S25).
fn read_own(l: &[u8]) -> Result<bool, Refusal>
    ensures { res_by (λ b. b) result ≡ own_line l.now }
{
    if is_word(l, b"own=yes") {
        return Ok(true);
    }
    if is_word(l, b"own=no") {
        return Ok(false);
    }
    Err(Refusal::Form)
}

pub fn next_own(s: &[u8], c: Cursor) -> Result<(bool, Cursor), Malformed>
    ensures { reading_by (λ b. b) s.now result ≡ line own_line c.at (split (drop c.at s.now)) }
{
    let d = next_line(s, c);
    placed(read_own(between(s, c, d)), c, d)
}

// The last line (S22).
fn read_end(l: &[u8]) -> Result<(), Refusal>
    ensures { res_by (λ u. u) result ≡ end_line l.now }
{
    if is_word(l, b"end=sheet") {
        return Ok(());
    }
    Err(Refusal::Form)
}

pub fn next_end(s: &[u8], c: Cursor) -> Result<((), Cursor), Malformed>
    ensures { reading_by (λ u. u) s.now result ≡ line end_line c.at (split (drop c.at s.now)) }
{
    let d = next_line(s, c);
    placed(read_end(between(s, c, d)), c, d)
}

// Whether every number is below n.
pub fn all_below(t: Numbers, n: usize) -> bool
    requires { t.count ≤ max_numbers }
    ensures { result ≡ all (below n) (numbers_of t) }
{
    let items = [t.first, t.second, t.third, t.fourth];
    items[..t.count].iter().all(|x| *x < n)
}

// An `under=` line, of category k (S24): 2 where a number names no category, else 3 where one is not below k (S12).
fn read_under(l: &[u8], cats: usize, k: usize) -> Result<Links, Refusal>
    requires { (cats ≤ max_categories) × (k ≤ max_categories) }
    ensures is { res_by broader_in result ≡ under_line cats k l.now }
    ensures exact { IfOk result LinksExact }
{
    if !begins(l, b"under=") {
        return Err(Refusal::Form);
    }
    let t = numbers_at(l, 6, Counts::BROADER).ok_or(Refusal::Form)?;
    if t.next < l.len() {
        return Err(Refusal::Form);
    }
    if !all_below(t, cats + 1) {
        return Err(Refusal::OutOfRange);
    }
    if !all_below(t, k) {
        return Err(Refusal::NotBelow);
    }
    Ok(Links {
        count: t.count as u8,
        first: t.first as u8,
        second: t.second as u8,
    })
}

pub fn next_under(s: &[u8], c: Cursor, cats: usize, k: usize) -> Result<(Links, Cursor), Malformed>
    requires { (cats ≤ max_categories) × (k ≤ max_categories) }
    ensures is { reading_by broader_in s.now result ≡ line (under_line cats k) c.at (split (drop c.at s.now)) }
    ensures exact { IfOk result (λ r. LinksExact r.0) }
{
    let d = next_line(s, c);
    placed(read_under(between(s, c, d), cats, k), c, d)
}
