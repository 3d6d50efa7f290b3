// The program `pairs`: a sheet's text in, the four relations of every pair of its types out (P16, P17). `report` takes any bytes and says what is printed
// (specs/Output.antt). Each line is written behind the one before it, in one lent buffer (F2).
#![tactic(auto)]

ghost use Rattle.std.specs.Prelude.{◌≡◌, ◌≤◌, length, take};
ghost use Rattle.spec_sheet.specs.Sheet.{malformed};
ghost use Rattle.text_write.specs.Fill.{Filled, Lined};
ghost use Rattle.pairs_output.specs.Output.{result_lines, pairs_output};

use text_write::{Printed, put_number, write_number, write_word};

// The longest input that is read (P1).
const INPUT_BYTES: usize = 32768;

// Room for what is printed: 48 * 48 lines of at most 14 bytes are 32,256.
pub const PRINTED_BYTES: usize = 32768;

// `no=N at=OFFSET`
fn refused_line(buf: &mut [u8], refusal: usize, at: usize) -> usize
    ensures is { Lined buf.old buf.new (result_lines (malformed refusal at)) result }
    ensures few { result ≤ 73 }
{
    let a = put_number(buf, b"no=", refusal);
    let k = a.min(buf.len());
    a + write_number(&mut buf[k..], b" at=", at)
}

// The whole output, in front of a lent buffer.
fn put_report(buf: &mut [u8], s: &[u8]) -> usize
    ensures is { Filled buf.old buf.new (pairs_output s.now) result }
    ensures few { result ≤ 32256 }
{
    if INPUT_BYTES < s.len() {
        return write_word(buf, b"no=2");
    }
    let mut types = table_record::empty_types();
    let mut links = table_record::empty_links();
    match sheet_read::read_into(s, &mut types, &mut links) {
        Ok(c) => {
            let pairs = relation_compare::pair_table(&types, &links, c);
            pairs_write_lines::pair_lines(buf, &pairs, c.sheet)
        }
        Err(e) => refused_line(buf, e.refusal.number(), e.at),
    }
}

// What the program prints for any input. `within` says what `&text[..length]` asks.
pub fn report(s: &[u8]) -> Printed<PRINTED_BYTES>
    ensures is { take result.length result.text ≡ pairs_output s.now }
    ensures within { (result.length ≤ length result.text) × (result.length ≡ length (take result.length result.text)) }
{
    let mut text = [0; PRINTED_BYTES];
    let length = put_report(&mut text, s);
    Printed { length, text }
}
