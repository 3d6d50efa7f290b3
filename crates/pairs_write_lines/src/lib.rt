// The lines of a pair table (P17) into a lent buffer, each behind the one before it (F2).
#![tactic(auto)]

ghost use Rattle.std.specs.Prelude.{[], ◌∷◌, ◌≤◌, ◌<◌};
ghost use Rattle.text_write.specs.Fill.{Filled, Lined};
ghost use Rattle.pairs_write_lines.specs.Parts.{comparison_text, code_line, row_lines, code_lines};
ghost use Rattle.spec_model.specs.Table.{max_sheet_types};

use relation_compare::PAIR_BYTES;
use table_record::Counts;
use text_write::{put_decimal, put_number, write_number};

// The comparison of a pair, and the end of the line.
fn put_comparison(buf: &mut [u8], code: usize) -> usize
    ensures is { Filled buf.old buf.new (comparison_text code) result }
    ensures few { result ≤ 145 }
{
    let a = put_number(buf, b" ", code % 2);
    let i = a.min(buf.len());
    let a = a + put_number(&mut buf[i..], b" ", code / 2 % 2);
    let j = a.min(buf.len());
    let a = a + put_number(&mut buf[j..], b" ", code / 4 % 2);
    let k = a.min(buf.len());
    a + write_number(&mut buf[k..], b" ", code / 8 % 2)
}

// `T S a b c d`
fn pair_line(buf: &mut [u8], t: usize, s: usize, code: usize) -> usize
    requires { (t < max_sheet_types) × (s < max_sheet_types) }
    ensures is { Lined buf.old buf.new (code_line t s code ∷ []) result }
    ensures few { result ≤ 14 }
{
    let a = put_decimal(buf, t);
    let j = a.min(buf.len());
    let a = a + put_number(&mut buf[j..], b" ", s);
    let k = a.min(buf.len());
    a + put_comparison(&mut buf[k..], code)
}

// The pairs of T with each of the n types.
fn row_lines(buf: &mut [u8], pairs: &[u8; PAIR_BYTES], t: usize, n: usize) -> usize
    requires { (t < max_sheet_types) × (n ≤ max_sheet_types) }
    ensures is { Lined buf.old buf.new (row_lines pairs.now t n) result }
    ensures few { result ≤ 672 }
{
    let mut at: usize = 0;
    for s in 0..n {
        let code = usize::from(pairs[t * Counts::SHEET_TYPES + s]);
        let k = at.min(buf.len());
        at += pair_line(&mut buf[k..], t, s, code);
    }
    at
}

// Every pair of the n types, T rising.
pub fn pair_lines(buf: &mut [u8], pairs: &[u8; PAIR_BYTES], n: usize) -> usize
    requires { n ≤ max_sheet_types }
    ensures is { Lined buf.old buf.new (code_lines pairs.now n n) result }
    ensures few { result ≤ 32256 }
{
    let mut at: usize = 0;
    for t in 0..n {
        let k = at.min(buf.len());
        at += row_lines(&mut buf[k..], pairs, t, n);
    }
    at
}
