// The line that `script` prints for what a request came to (P12, P13). Each piece is written behind the one before it, in one lent buffer (F2).
#![tactic(auto)]

ghost use Rattle.std.specs.Prelude.{[], ◌∷◌, ◌≤◌};
ghost use Rattle.spec_model.specs.Requests.{pair, number, got};
ghost use Rattle.request_common.specs.Outcome.{outcome_numbered};
ghost use Rattle.text_write.specs.Fill.{Filled, Lined};
ghost use Rattle.script_write_outcome.specs.Outcomes.{integer_text, outcome_text};

use base_numbers::refusal::Numbered;
use request_common::Answer;
use text_write::{put_byte, put_bytes, put_decimal, put_number, write_number, write_word};

// A signed decimal.
fn put_integer(buf: &mut [u8], v: i64) -> usize
    ensures is { Filled buf.old buf.new (integer_text v) result }
    ensures few { result ≤ 21 }
{
    let n = v.unsigned_abs() as usize;
    if v < 0 {
        let a = put_byte(buf, b'-');
        let k = a.min(buf.len());
        return a + put_decimal(&mut buf[k..], n);
    }
    put_decimal(buf, n)
}

// A result of two numbers (P12).
fn write_pair(buf: &mut [u8], first: usize, second: usize) -> usize
    ensures is { Lined buf.old buf.new (outcome_text (got (pair first second)) ∷ []) result }
    ensures few { result ≤ 73 }
{
    let a = put_number(buf, b"got=", first);
    let k = a.min(buf.len());
    a + write_number(&mut buf[k..], b" ", second)
}

// The number answered.
fn write_integer(buf: &mut [u8], v: i64) -> usize
    ensures is { Lined buf.old buf.new (outcome_text (got (number v)) ∷ []) result }
    ensures few { result ≤ 26 }
{
    let a = put_bytes(buf, b"got=");
    let k = a.min(buf.len());
    let a = a + put_integer(&mut buf[k..], v);
    let j = a.min(buf.len());
    a + put_byte(&mut buf[j..], b'\n')
}

// The line of an outcome.
pub fn write_outcome<E: Numbered>(buf: &mut [u8], a: Result<Answer, E>) -> usize
    ensures is { Lined buf.old buf.new (outcome_text (outcome_numbered E.numbered a) ∷ []) result }
    ensures few { result ≤ 73 }
{
    match a {
        Ok(Answer::Pair { first, second }) => write_pair(buf, first, second),
        Ok(Answer::Number(v)) => write_integer(buf, v),
        Ok(Answer::Nothing) => write_word(buf, b"got=-"),
        Err(e) => write_number(buf, b"no=", e.to_number()),
    }
}
