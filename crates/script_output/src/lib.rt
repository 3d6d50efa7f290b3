// The program `script`: a sheet and request lines in, a line for each request out (P1 to P15). `script` takes any bytes and says what is printed
// (specs/Output.antt).
// Each line is written behind the one before it, in one lent buffer (F2).
#![tactic(auto)]

ghost use Rattle.std.specs.Prelude.{◌≡◌, cond, ◌≤◌, length, IfSome};
ghost use Rattle.spec_sheet.specs.Lines.{split};
ghost use Rattle.spec_sheet.specs.Text.{write_text};
ghost use Rattle.state_record.specs.Whole.{whole};
ghost use Rattle.state_record.specs.View.{system_in};
ghost use Rattle.state_record.specs.Sound.{Sound};
ghost use Rattle.request_common.specs.Served.{Step, done};
ghost use Rattle.request_by_code.specs.Coded.{serve_asked};
ghost use Rattle.script_read_request.specs.Asked.{max_operands};
ghost use Rattle.script_read_request.specs.Read.{asked_as};
ghost use Rattle.text_write.specs.Fill.{Filled, Lined};
ghost use Rattle.text_write.specs.Written.{written_of};
ghost use Rattle.script_output.specs.Output.{max_input, sheet_end, script_output};
ghost use Rattle.script_output.specs.Parts.{lines_from};

use base_numbers::refusal::Refusal;
use request_common::Answer;
use script_read_request::{Asked, read_request};
use script_write_outcome::write_outcome;
use state_record::State;
use table_record::TYPE_BYTES;
use text_cursor::{Cursor, between, next_line};
use text_read::is_word;
use text_write::{write_number, write_word};

// The longest input that is read (P1).
pub const INPUT_BYTES: usize = 32768;

// No output is longer than its input by more (P18; proofs/Short.antt).
const LONGER: usize = 5;

// Room for what is printed.
pub const PRINTED_BYTES: usize = INPUT_BYTES + LONGER;

// Where the sheet ends (P2). A line that no LF ends is the last one: the cursor stays in front of it.
fn sheet_end(s: &[u8]) -> usize
    ensures is { result ≡ sheet_end s.now }
    ensures within { result ≤ length s.now }
{
    let mut at = 0;
    // Kept: no count; each line says where the next one begins.
    while at < s.len() {
        let c = Cursor { at };
        let d = next_line(s, c);
        let next = d.at;
        if next == at {
            return s.len();
        }
        let l = between(s, c, d);
        if is_word(l, b"end=sheet") {
            return next;
        }
        at = next;
    }
    at
}

// What a line asks, served (P4); a malformed line is refused with 1 (P11).
fn serve_asked(
    types: &mut [u8; TYPE_BYTES],
    s: &mut State,
    q: Option<Asked>,
) -> Result<Answer, Refusal>
    requires { Sound (whole types.old s.old) × IfSome q (λ a. (a.count ≤ max_operands) × (length a.items ≡ max_operands)) }
    ensures { Step (whole types.old s.old) (serve_asked (system_in (whole types.old s.old)) (asked_as q)) (done types.new s.new result) }
{
    let Some(a) = q else {
        return Err(Refusal::Form);
    };
    request_by_code::serve_coded(types, s, a.code.number(), &a.items[..a.count])
}

// Where the line behind one begins that was passed: none is read behind a malformed line (P11).
fn behind(asks: bool, next: usize, end: usize) -> usize
    ensures { result ≡ cond asks next end }
{
    if asks { next } else { end }
}

// A line for each request, on the state that those before it left.
fn serve_lines(buf: &mut [u8], types: &mut [u8; TYPE_BYTES], s: &mut State, rest: &[u8]) -> usize
    requires { Sound (whole types.old s.old) × (length rest.now ≤ max_input) }
    ensures is { Lined buf.old buf.new (lines_from (system_in (whole types.old s.old)) (split rest.now)) result }
    ensures few { result ≤ 2392064 }
{
    let mut written: usize = 0;
    let mut at = 0;
    // Kept: no count; each line says where the next one begins.
    while at < rest.len() {
        let c = Cursor { at };
        let d = next_line(rest, c);
        let l = between(rest, c, d);
        let q = read_request(l);
        let asks = q.is_some();
        let outcome = serve_asked(types, s, q);
        let k = written.min(buf.len());
        written += write_outcome(&mut buf[k..], outcome);
        at = behind(asks, d.at, rest.len());
    }
    written
}

// The whole output, in front of a lent buffer.
fn put_script(buf: &mut [u8], s: &[u8]) -> usize
    ensures { Filled buf.old buf.new (script_output s.now) result }
{
    if INPUT_BYTES < s.len() {
        return write_word(buf, b"no=2");
    }
    let e = sheet_end(s);
    let mut x = sheet_read::read(&s[..e]);
    if x.refusal != 0 {
        return write_number(buf, b"no=", x.refusal);
    }
    let mut state = State::loaded(x.links, x.counts);
    serve_lines(buf, &mut x.types, &mut state, &s[e..])
}

// What the program prints for any input, in front of a buffer of any length: 4 where it does not fit, and then the buffer stays as it was.
// Five bytes more than the input are enough, so that most callers need not count first.
pub fn script(s: &[u8], buf: &mut [u8]) -> Result<usize, Refusal>
    ensures { written_of result buf.new ≡ write_text (script_output s.now) buf.old }
{
    if s.len().min(INPUT_BYTES) + LONGER <= buf.len() {
        return Ok(put_script(buf, s));
    }
    let need = put_script(&mut buf[..0], s);
    if buf.len() < need {
        return Err(Refusal::ShortBuffer);
    }
    Ok(put_script(buf, s))
}
