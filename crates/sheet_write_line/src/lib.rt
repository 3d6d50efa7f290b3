// Each kind of line of a sheet (S24 to S26) that is more than a key and a number, written in front of a lent buffer. Inside a line too the rest of
// the buffer, from the end of what is written, is lent on to the next writer. Every code has a line, so that nothing is asked of the bytes.
#![tactic(auto)]

ghost use Rattle.std.specs.Prelude.{[], ◌∷◌, ◌≤◌, eqb, length, take};
ghost use Rattle.spec_model.specs.Check.{rep_of, answer_of, method_of, links_of};
ghost use Rattle.table_record.specs.Store.{raw_method, raw_links};
ghost use Rattle.spec_sheet.specs.Numbers.{commas};
ghost use Rattle.spec_sheet.specs.Text.{under_text, rep_text, own_text, answer_text, method_text};
ghost use Rattle.text_write.specs.Fill.{Filled, Lined};
ghost use Rattle.sheet_write_line.specs.Pieces.{argument_text, closing_text, signed_text, second_text};

use table_record::{Head, Links, Method};
use text_write::{put_byte, put_bytes, put_decimal, put_number, write_number, write_word};

// Argument i of a signature.
fn put_argument(buf: &mut [u8], i: usize, n: usize) -> usize
    ensures is { Filled buf.old buf.new (argument_text i n) result }
    ensures few { result ≤ 36 }
{
    if i == 0 {
        return put_decimal(buf, n);
    }
    put_number(buf, b",", n)
}

// The first `count` arguments of a signature, of which there are four slots.
fn put_arguments(buf: &mut [u8], count: usize, args: [u8; Method::SLOTS]) -> usize
    ensures is { Filled buf.old buf.new (commas (take count args)) result }
    ensures few { result ≤ 144 }
{
    let n = count.min(Method::SLOTS);
    let mut at: usize = 0;
    for (i, &a) in args[..n].iter().enumerate() {
        let k = at.min(buf.len());
        at += put_argument(&mut buf[k..], i, usize::from(a));
    }
    at
}

// The answer of a signature, `-` for none (S26).
fn put_answer(buf: &mut [u8], answer: u8) -> usize
    ensures is { Filled buf.old buf.new (answer_text (answer_of answer)) result }
    ensures few { result ≤ 20 }
{
    if answer == 0 {
        return put_byte(buf, b'-');
    }
    put_decimal(buf, usize::from(answer - 1))
}

// The end of a signature: the bracket, the answer, and the end of the line.
fn put_closing(buf: &mut [u8], answer: u8) -> usize
    ensures is { Filled buf.old buf.new (closing_text answer) result }
    ensures few { result ≤ 22 }
{
    let a = put_byte(buf, b')');
    let j = a.min(buf.len());
    let a = a + put_answer(&mut buf[j..], answer);
    let k = a.min(buf.len());
    a + put_byte(&mut buf[k..], b'\n')
}

// The line of a permitted method, whose key ends in the bracket (S26).
fn write_signed(buf: &mut [u8], key: &[u8], m: Method) -> usize
    requires { length key.now ≤ 16 }
    ensures is { Lined buf.old buf.new (signed_text key.now m.count m.args m.answer ∷ []) result }
    ensures few { result ≤ 182 }
{
    let a = put_bytes(buf, key);
    let j = a.min(buf.len());
    let a = a + put_arguments(&mut buf[j..], usize::from(m.count), m.args);
    let k = a.min(buf.len());
    a + put_closing(&mut buf[k..], m.answer)
}

// The line of a method (S26).
#[tactic(auto, unfolding(spec_sheet::specs::Text::method_text))]
pub fn write_method(buf: &mut [u8], m: Method) -> usize
    ensures is { Lined buf.old buf.new (method_text (method_of (raw_method m)) ∷ []) result }
    ensures few { result ≤ 182 }
{
    match m.state {
        Method::DENIED => write_word(buf, b"m=denied"),
        Method::OPTIONAL => write_signed(buf, b"m=optional(", m),
        Method::AVAIL => write_signed(buf, b"m=avail(", m),
        _ => write_word(buf, b"m=unavail"),
    }
}

// The line of a representation (S25).
pub fn write_rep(buf: &mut [u8], rep: u8) -> usize
    ensures is { Lined buf.old buf.new (rep_text (rep_of rep) ∷ []) result }
    ensures few { result ≤ 17 }
{
    match rep {
        Head::REF => write_word(buf, b"rep=ref"),
        Head::W32 => write_word(buf, b"rep=w32"),
        _ => write_word(buf, b"rep=w64"),
    }
}

// The line of the own flag (S25).
pub fn write_own(buf: &mut [u8], own: u8) -> usize
    ensures is { Lined buf.old buf.new (own_text (eqb own 1) ∷ []) result }
    ensures few { result ≤ 17 }
{
    if own == Head::OWN {
        write_word(buf, b"own=yes")
    } else {
        write_word(buf, b"own=no")
    }
}

// What follows the first number of an `under=` line: the second, where there is one, and the end of the line.
fn put_second(buf: &mut [u8], x: Links) -> usize
    ensures is { Filled buf.old buf.new (second_text x) result }
    ensures few { result ≤ 37 }
{
    if x.count == 2 {
        return write_number(buf, b",", usize::from(x.second));
    }
    put_byte(buf, b'\n')
}

// The line of a category's broader ones (S24, W7).
pub fn write_under(buf: &mut [u8], x: Links) -> usize
    ensures is { Lined buf.old buf.new (under_text (links_of (raw_links x)) ∷ []) result }
    ensures few { result ≤ 73 }
{
    let a = put_number(buf, b"under=", usize::from(x.first));
    let k = a.min(buf.len());
    a + put_second(&mut buf[k..], x)
}
