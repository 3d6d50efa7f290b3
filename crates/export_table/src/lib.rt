// What tests, benchmarks and integrators link: C functions on numbers and arrays of bytes, for any numbers and any bytes (E2, E12). A table is three arrays:
// the bytes of its types, those of its links, and five counts in the order of B12; docs/SPEC.md, section B, has the layout. The numbers returned are given by
// definitions in specs/Codes.antt.
#![tactic(auto)]

ghost use Rattle.std.specs.Prelude.{◌≡◌, ◌+◌};
ghost use Rattle.base_numbers.specs.Refusal.{res_by};
ghost use Rattle.spec_model.specs.Check.{compare_handed};
ghost use Rattle.table_record.specs.Store.{raw_table};
ghost use Rattle.relation_compare.specs.Comparing.{comparison_of};
ghost use Rattle.relation_compare.specs.Pairs.{pairs_handed};
ghost use Rattle.derive_entry.specs.Handed.{derive_handed};
ghost use Rattle.spec_sheet.specs.Text.{write};
ghost use Rattle.text_write.specs.Written.{WrittenIs};
ghost use Rattle.state_bytes.specs.Flat.{counts_in};
ghost use Rattle.export_table.specs.Codes.{comparison_code, compared_code, handed_out, DerivedIs, lent};

use base_numbers::refusal::Refusal;
use relation_compare::{Comparison, PAIR_BYTES};
use table_record::{Counts, LINK_BYTES, TYPE_BYTES};

// A table's counts from five numbers in a row.
fn counts_of(n: [usize; 5]) -> Counts
    ensures { result ≡ counts_in n }
{
    Counts {
        subjects: n[0],
        methods: n[1],
        cats: n[2],
        sheet: n[3],
        types: n[4],
    }
}

// A comparison as one number.
fn comparison_code(a: Comparison) -> usize
    ensures { result ≡ comparison_code (comparison_of a) }
{
    16 + usize::from(relation_compare::pair_code(a))
}

// What Compare comes to as one number.
// Kept: the C interface; each function here returns the number of a refusal.
fn compared_code(r: Result<Comparison, Refusal>) -> usize
    ensures { result ≡ compared_code (res_by comparison_of r) }
{
    match r {
        Ok(a) => comparison_code(a),
        Err(e) => e.number(),
    }
}

// Compare (R14) on a table handed in: 2, then 7, else 16 and the comparison.
#[unsafe(no_mangle)]
pub extern "C" fn pilgonca_compare(
    types: &[u8; TYPE_BYTES],
    links: &[u8; LINK_BYTES],
    counts: &[usize; 5],
    t: i64,
    s: i64,
) -> usize
    ensures { result ≡ compared_code (compare_handed (raw_table types.now links.now (counts_in counts.now)) t s) }
{
    let c = counts_of(*counts);
    let r = relation_compare::compare_types(types, links, c, t, s);
    compared_code(r)
}

// Sheet write (W) of a table handed in: 2, then 4 where the buffer is short, else 0 and the length; a refusal leaves buffer and length as they were.
#[unsafe(no_mangle)]
pub extern "C" fn pilgonca_write(
    buffer: &mut [u8],
    types: &[u8; TYPE_BYTES],
    links: &[u8; LINK_BYTES],
    counts: &[usize; 5],
    length: &mut usize,
) -> usize
    ensures { WrittenIs (write (raw_table types.now links.now (counts_in counts.now)) buffer.old) result
        length.old length.new buffer.new }
{
    let c = counts_of(*counts);
    let w = sheet_write::write_sheet(buffer, types, links, c);
    text_write::wrote_code(w, length)
}

// The pair table (E9) of a table handed in: 0 and the comparison at every pair of sheet types, or 2 and `out` as it was.
#[unsafe(no_mangle)]
pub extern "C" fn pilgonca_pairs(
    types: &[u8; TYPE_BYTES],
    links: &[u8; LINK_BYTES],
    counts: &[usize; 5],
    out: &mut [u8; PAIR_BYTES],
) -> usize
    ensures { (result, out.new)
        ≡ handed_out out.old (pairs_handed (raw_table types.now links.now (counts_in counts.now))) }
{
    let c = counts_of(*counts);
    match relation_compare::pairs_of(types, links, c) {
        Ok(entries) => {
            *out = entries;
            0
        }
        Err(e) => e.number(),
    }
}

// A derivation (E10) on a table handed in: Sub (kind 0), Sup (1) or Closed (2) of types t and s. 0, with types and counts those of the table that there is now
// and `number` the derived type's; or 2, 7 or 11, and nothing is changed.
#[unsafe(no_mangle)]
pub extern "C" fn pilgonca_derive(
    types: &mut [u8; TYPE_BYTES],
    links: &[u8; LINK_BYTES],
    counts: &mut [usize; 5],
    kind: usize,
    t: i64,
    s: i64,
    number: &mut usize,
) -> usize
    ensures { DerivedIs links.now
        (derive_handed (raw_table types.old links.now (counts_in counts.old)) kind t s) result
        (lent types.old counts.old number.old) (lent types.new counts.new number.new) }
{
    let c = counts_of(*counts);
    let r = derive_entry::derive(types, links, c, kind, t, s);
    match r {
        Ok((i, count)) => {
            *counts = [c.subjects, c.methods, c.cats, c.sheet, count];
            *number = i;
            0
        }
        Err(e) => e.number(),
    }
}
