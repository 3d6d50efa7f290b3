// The program `doors`: three lines in, one line out (P27 to P29). `report` takes any bytes and says what is printed, in the words of crate `spec_doors`.
#![tactic(auto)]

ghost use Rattle.std.specs.Prelude.{◌≡◌, [], ◌∷◌, ◌++◌, ◌≤◌, length, take, Ok};
ghost use Rattle.spec_sheet.specs.Lines.{bytes, split};
ghost use Rattle.spec_sheet.specs.Text.{number_text};
ghost use Rattle.spec_doors.specs.Input.{input_lines};
ghost use Rattle.spec_doors.specs.Output.{held_text, held_in, doors_output};
ghost use Rattle.doors_hold.specs.Result.{held_of};
ghost use Rattle.text_write.specs.Fill.{Filled, Lined};

use base_numbers::refusal::Refusal;
use doors_hold::{Counts, TIMES};
use text_write::{Printed, put_number, write_number, write_word};

// The longest input that is read (P1).
const INPUT_BYTES: usize = 32768;

// Room for what is printed: a line of at most 109 bytes.
pub const PRINTED_BYTES: usize = 128;

// What comes of the input's lines. More times than there is room for are more than V1 allows.
fn hold_lines(s: &[u8]) -> Result<Counts, Refusal>
    ensures { held_of result ≡ held_in (input_lines 0 (split s.now)) }
{
    let mut marks = [0; TIMES];
    let mut arrivals = [0; TIMES];
    let x = doors_read::read_input(s, &mut marks, &mut arrivals).ok_or(Refusal::Form)?;
    if TIMES < x.marks || TIMES < x.arrivals {
        return Err(Refusal::UnfitTimes);
    }
    doors_hold::hold(&marks[..x.marks], &arrivals[..x.arrivals], x.within as u64)
}

// The last two counts of a line.
fn write_unpaired(buf: &mut [u8], c: Counts) -> usize
    ensures is { Lined buf.old buf.new ((number_text (bytes " ") c.marks ++ number_text (bytes " ") c.arrivals) ∷ []) result }
    ensures few { result ≤ 73 }
{
    let a = put_number(buf, b" ", c.marks);
    let k = a.min(buf.len());
    a + write_number(&mut buf[k..], b" ", c.arrivals)
}

// `got=` and the three counts (P29)
fn write_counts(buf: &mut [u8], c: Counts) -> usize
    ensures is { Lined buf.old buf.new (held_text (held_of (Ok c)) ∷ []) result }
    ensures few { result ≤ 109 }
{
    let a = put_number(buf, b"got=", c.pairs);
    let k = a.min(buf.len());
    a + write_unpaired(&mut buf[k..], c)
}

// The line of a result.
fn write_held(buf: &mut [u8], h: Result<Counts, Refusal>) -> usize
    ensures is { Lined buf.old buf.new (held_text (held_of h) ∷ []) result }
    ensures few { result ≤ 109 }
{
    match h {
        Ok(c) => write_counts(buf, c),
        Err(e) => write_number(buf, b"no=", e.number()),
    }
}

// The whole output, in front of a lent buffer.
fn put_report(buf: &mut [u8], s: &[u8]) -> usize
    ensures is { Filled buf.old buf.new (doors_output s.now) result }
    ensures few { result ≤ 109 }
{
    if INPUT_BYTES < s.len() {
        return write_word(buf, b"no=2");
    }
    write_held(buf, hold_lines(s))
}

// What the program prints for any input. `within` says what `&text[..length]` asks.
pub fn report(s: &[u8]) -> Printed<PRINTED_BYTES>
    ensures is { take result.length result.text ≡ doors_output s.now }
    ensures within { (result.length ≤ length result.text) × (result.length ≡ length (take result.length result.text)) }
{
    let mut text = [0; PRINTED_BYTES];
    let length = put_report(&mut text, s);
    Printed { length, text }
}
