// The sheet reader (docs/SPEC.md S). `read` takes any bytes and gives a table, or the number of a refusal and the byte offset of the line.
// What comes of it is crate `spec_sheet`'s definition `read`, and every byte of it is determined by it (specs/Result.antt, `sheet_for`).
// Lines are found by crate `text_read` and read by `sheet_read_line`, the types by `sheet_read_type`; here they are put together.
#![tactic(auto)]

ghost use Rattle.std.specs.Prelude.{◌≡◌, [], ◌≤◌, drop, IfOk, OnOk};
ghost use Rattle.spec_model.specs.Table.{Table, max_methods, max_categories, max_types};
ghost use Rattle.table_record.specs.Store.{types_in, links_in, types_to, empty_types, empty_links};
ghost use Rattle.table_record.specs.Records.{link_bytes};
ghost use Rattle.spec_sheet.specs.Lines.{split, times};
ghost use Rattle.spec_sheet.specs.Sheet.{ending, read as read_sheet};
ghost use Rattle.text_read.specs.View.{reading_by};
ghost use Rattle.sheet_read_type.specs.View.{done_by};
ghost use Rattle.sheet_read.specs.View.{links_to, each_under, first, sheet_for, read_into_of, table_of};

use base_numbers::refusal::Refusal;
use sheet_read_line::{next_end, next_under};
use sheet_read_type::types_into;
use table_record::{Counts, LINK_BYTES, TYPE_BYTES};
use text_cursor::Cursor;
use text_read::{Malformed, next_number};

// The newest form of a sheet that there is (S22).
const NEWEST_FORM: usize = 1;

// What the first four lines say.
#[derive(Clone, Copy)]
pub struct Front {
    pub subjects: usize,
    pub methods: usize,
    pub cats: usize,
}

// The reader's result: 0, 0 and the table; or the number of a refusal and the byte offset of its line, with a table that holds nothing.
// Kept: what may not change (the theorems of crates/theorem/specs speak of these fields, the table's beside the refusal's).
#[derive(Clone, Copy)]
pub struct Sheet {
    pub refusal: usize,
    pub at: usize,
    pub types: [u8; TYPE_BYTES],
    pub links: [u8; LINK_BYTES],
    pub counts: Counts,
}

// The `under=` lines of the categories (S22), stored in lent bytes that hold nothing; the cursor stands behind them.
fn links_into(
    s: &[u8],
    c: Cursor,
    cats: usize,
    l: &mut [u8; LINK_BYTES],
) -> Result<Cursor, Malformed>
    requires { (cats ≤ max_categories) × (l.old ≡ empty_links) }
    ensures is { done_by s.now (links_to cats (links_in l.new)) result
        ≡ times (each_under cats) cats 1 [] c.at (split (drop c.at s.now)) }
    ensures exact { OnOk result (l.new ≡ link_bytes (links_to cats (links_in l.new))) }
{
    let mut at = c;
    for j in 0..cats {
        let (x, next) = next_under(s, at, cats, j + 1)?;
        table_store::put_links(l, j + 1, x);
        at = next;
    }
    Ok(at)
}

// The last line, and nothing behind it (S10). Only then are the signatures tested: 3 at the last line where a type stands in one that may not (S6, S13).
fn last_line(
    s: &[u8],
    c: Cursor,
    b: &[u8; TYPE_BYTES],
    n: usize,
    m: usize,
) -> Result<Cursor, Malformed>
    requires { (n ≤ max_types) × (m ≤ max_methods) }
    ensures { (t : Table) → t.types ≡ types_to m n n (types_in b.now)
        → done_by s.now t result ≡ ending t c.at (split (drop c.at s.now)) }
{
    let (_, next) = next_end(s, c)?;
    if next.at < s.len() {
        return Err(Malformed {
            refusal: Refusal::Form,
            at: next.at,
        });
    }
    if !sheet_read_signatures::types_stand(b, n, m) {
        return Err(Malformed {
            refusal: Refusal::NotBelow,
            at: c.at,
        });
    }
    Ok(next)
}

// The first four lines (S22).
fn first_lines(s: &[u8]) -> Result<(Front, Cursor), Malformed>
    ensures is { reading_by (λ f. f) s.now result ≡ first 0 (split s.now) }
    ensures within { IfOk result (λ r. (r.0.methods ≤ max_methods) × (r.0.cats ≤ max_categories)) }
{
    let c = Cursor::start();
    let (_, c) = next_number(s, c, b"guide=", 1, NEWEST_FORM)?;
    let (subjects, c) = next_number(s, c, b"subjects=", 1, Counts::SUBJECTS)?;
    let (methods, c) = next_number(s, c, b"methods=", 1, Counts::METHODS)?;
    let (cats, c) = next_number(s, c, b"cats=", 0, Counts::CATEGORIES)?;
    Ok((
        Front {
            subjects,
            methods,
            cats,
        },
        c,
    ))
}

// A table that holds nothing.
fn clear(types: &mut [u8; TYPE_BYTES], links: &mut [u8; LINK_BYTES])
    ensures { (types.new ≡ empty_types) × (links.new ≡ empty_links) }
{
    *types = table_record::empty_types();
    *links = table_record::empty_links();
}

// A sheet read into lent bytes that hold nothing. Of one that is refused they hold what stands in front of the line.
fn table_into(
    s: &[u8],
    types: &mut [u8; TYPE_BYTES],
    links: &mut [u8; LINK_BYTES],
) -> Result<Counts, Malformed>
    requires { (types.old ≡ empty_types) × (links.old ≡ empty_links) }
    ensures { table_of result types.new links.new ≡ sheet_for (read_sheet s.now) }
{
    let (h, c) = first_lines(s)?;
    let c = links_into(s, c, h.cats, links)?;
    let (n, c) = next_number(s, c, b"types=", 1, Counts::SHEET_TYPES)?;
    let c = types_into(s, c, h.methods, h.cats, n, types)?;
    last_line(s, c, types, n, h.methods)?;
    Ok(Counts {
        subjects: h.subjects,
        methods: h.methods,
        cats: h.cats,
        sheet: n,
        types: n,
    })
}

// Sheet read into lent bytes, for any text; what the bytes held before is gone. Of a sheet that is refused they hold nothing (S31, S32).
pub fn read_into(
    s: &[u8],
    types: &mut [u8; TYPE_BYTES],
    links: &mut [u8; LINK_BYTES],
) -> Result<Counts, Malformed>
    ensures { read_into_of result types.new links.new ≡ sheet_for (read_sheet s.now) }
{
    clear(types, links);
    let r = table_into(s, types, links);
    if r.is_err() {
        clear(types, links);
    }
    r
}

// The same, with the bytes of the table in the result. Where a sheet is accepted there is no line to point at, and `at` is 0 (S33).
pub fn read(s: &[u8]) -> Sheet
    ensures { result ≡ sheet_for (read_sheet s.now) }
{
    let mut types = table_record::empty_types();
    let mut links = table_record::empty_links();
    let (refusal, at, counts) = match read_into(s, &mut types, &mut links) {
        Ok(counts) => (0, 0, counts),
        Err(e) => (e.refusal.number(), e.at, Counts::empty()),
    };
    Sheet {
        refusal,
        at,
        types,
        links,
        counts,
    }
}
