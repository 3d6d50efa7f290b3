// The text of a table's sheet (W) into a lent buffer, part by part. Each writer is lent what the ones before it left free of the buffer (F2).
// Writers are total (crate `text_write`): they say how long their text is, also where it does not fit.
#![tactic(auto)]

ghost use Rattle.std.specs.Prelude.{[], ◌∷◌, ◌≤◌, ◌<◌, eqb};
ghost use Rattle.spec_model.specs.Check.{rep_of, table_of};
ghost use Rattle.spec_model.specs.Table.{max_methods, max_categories, max_types};
ghost use Rattle.table_record.specs.Limits.{Limits};
ghost use Rattle.table_record.specs.Store.{raw_table};
ghost use Rattle.spec_sheet.specs.Lines.{bytes};
ghost use Rattle.spec_sheet.specs.Text.{number_text, rep_text, own_text, type_lines, text};
ghost use Rattle.text_write.specs.Fill.{Filled, Lined};
ghost use Rattle.sheet_write_table.specs.Parts.{type_in, method_lines, type_lines_to, under_lines, count_lines, front_lines, back_lines};

use sheet_write_line::{write_method, write_own, write_rep, write_under};
use table_record::{Counts, Head, LINK_BYTES, TYPE_BYTES};
use text_write::{write_number, write_word};

// The newest form of a sheet that there is, the one that is written (S22).
const NEWEST_FORM: usize = 1;

// The lines of the methods of type i.
fn write_methods(buf: &mut [u8], b: &[u8; TYPE_BYTES], i: usize, methods: usize) -> usize
    requires { (i < max_types) × (methods ≤ max_methods) }
    ensures is { Lined buf.old buf.new (method_lines b.now i methods) result }
    ensures few { result ≤ 2912 }
{
    let mut at: usize = 0;
    for j in 0..methods {
        let k = at.min(buf.len());
        at += write_method(&mut buf[k..], table_record::get_method(b, i, j));
    }
    at
}

// The first three lines of a type (S25).
fn write_head(buf: &mut [u8], i: usize, h: Head) -> usize
    requires { i < max_types }
    ensures is { Lined buf.old buf.new
        (number_text (bytes "type=") i ∷ rep_text (rep_of h.rep) ∷ number_text (bytes "cat=") h.cat ∷ []) result }
    ensures few { result ≤ 91 }
{
    let a = write_number(buf, b"type=", i);
    let j = a.min(buf.len());
    let a = a + write_rep(&mut buf[j..], h.rep);
    let k = a.min(buf.len());
    a + write_number(&mut buf[k..], b"cat=", usize::from(h.cat))
}

// The other lines of a reference type (S25).
fn write_members(buf: &mut [u8], b: &[u8; TYPE_BYTES], i: usize, own: u8, methods: usize) -> usize
    requires { (i < max_types) × (methods ≤ max_methods) }
    ensures is { Lined buf.old buf.new (own_text (eqb own 1) ∷ method_lines b.now i methods) result }
    ensures few { result ≤ 2929 }
{
    let a = write_own(buf, own);
    let k = a.min(buf.len());
    a + write_methods(&mut buf[k..], b, i, methods)
}

// The lines of type i; a number type has only the first three.
fn write_type(buf: &mut [u8], b: &[u8; TYPE_BYTES], c: Counts, i: usize) -> usize
    requires { (i < max_types) × (c.methods ≤ max_methods) }
    ensures is { Lined buf.old buf.new (type_lines i (type_in b.now c i)) result }
    ensures few { result ≤ 3020 }
{
    let h = table_record::get_head(b, i);
    let a = write_head(buf, i, h);
    if h.rep != Head::REF {
        return a;
    }
    let k = a.min(buf.len());
    a + write_members(&mut buf[k..], b, i, h.own, c.methods)
}

// The sheet types, and no derived ones (W5).
fn write_types(buf: &mut [u8], b: &[u8; TYPE_BYTES], c: Counts) -> usize
    requires { Limits c }
    ensures is { Lined buf.old buf.new (type_lines_to b.now c c.sheet) result }
    ensures few { result ≤ 144960 }
{
    let mut at: usize = 0;
    for i in 0..c.sheet {
        let k = at.min(buf.len());
        at += write_type(&mut buf[k..], b, c, i);
    }
    at
}

// The lines of the categories, of which the first is category 1.
fn write_unders(buf: &mut [u8], l: &[u8; LINK_BYTES], cats: usize) -> usize
    requires { cats ≤ max_categories }
    ensures is { Lined buf.old buf.new (under_lines l.now cats) result }
    ensures few { result ≤ 2263 }
{
    let mut at: usize = 0;
    for i in 0..cats {
        let k = at.min(buf.len());
        at += write_under(&mut buf[k..], table_record::get_links(l, i + 1));
    }
    at
}

// The first four lines (S22).
fn write_counts(buf: &mut [u8], c: Counts) -> usize
    requires { Limits c }
    ensures is { Lined buf.old buf.new (count_lines c) result }
    ensures few { result ≤ 148 }
{
    let a = write_number(buf, b"guide=", NEWEST_FORM);
    let j = a.min(buf.len());
    let a = a + write_number(&mut buf[j..], b"subjects=", c.subjects);
    let k = a.min(buf.len());
    let a = a + write_number(&mut buf[k..], b"methods=", c.methods);
    let n = a.min(buf.len());
    a + write_number(&mut buf[n..], b"cats=", c.cats)
}

// The lines in front of the types.
fn write_front(buf: &mut [u8], l: &[u8; LINK_BYTES], c: Counts) -> usize
    requires { Limits c }
    ensures is { Lined buf.old buf.new (front_lines l.now c) result }
    ensures few { result ≤ 2448 }
{
    let a = write_counts(buf, c);
    let j = a.min(buf.len());
    let a = a + write_unders(&mut buf[j..], l, c.cats);
    let k = a.min(buf.len());
    a + write_number(&mut buf[k..], b"types=", c.sheet)
}

// The types, and the last line.
fn write_back(buf: &mut [u8], b: &[u8; TYPE_BYTES], c: Counts) -> usize
    requires { Limits c }
    ensures is { Lined buf.old buf.new (back_lines b.now c) result }
    ensures few { result ≤ 144977 }
{
    let a = write_types(buf, b, c);
    let k = a.min(buf.len());
    a + write_word(&mut buf[k..], b"end=sheet")
}

// The whole sheet.
pub fn put_sheet(buf: &mut [u8], b: &[u8; TYPE_BYTES], l: &[u8; LINK_BYTES], c: Counts) -> usize
    requires { Limits c }
    ensures { Filled buf.old buf.new (text (table_of (raw_table b.now l.now c))) result }
{
    let a = write_front(buf, l, c);
    let k = a.min(buf.len());
    a + write_back(&mut buf[k..], b, c)
}
