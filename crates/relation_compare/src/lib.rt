// The comparison of a pair of types, each relation by a search of its own; Compare at two numbers that are handed in, and the pair table of a sheet: the same
// comparison for every pair of its types.
#![tactic(auto)]

ghost use Rattle.std.specs.Prelude.{◌≡◌, ◌+◌, ◌*◌, ◌≤◌};
ghost use Rattle.base_numbers.specs.Refusal.{res_by};
ghost use Rattle.spec_model.specs.Relations.{compare};
ghost use Rattle.spec_model.specs.Check.{compare_handed};
ghost use Rattle.table_record.specs.Store.{raw_table, table_in};
ghost use Rattle.table_record.specs.Limits.{Checked};
ghost use Rattle.relation_compare.specs.Comparing.{comparison_of, comparison_at};
ghost use Rattle.relation_compare.specs.Pairs.{pair_code, pair_entry, pair_table, pairs_handed};

use base_numbers::refusal::Refusal;
use relation_search::related_at;
use relation_states::Relation;
use table_record::{Counts, LINK_BYTES, TYPE_BYTES};

// The bytes of a pair table (B24).
pub const PAIR_BYTES: usize = Counts::SHEET_TYPES * Counts::SHEET_TYPES;

// The comparison of a pair of types (R14).
#[derive(Clone, Copy)]
pub struct Comparison {
    pub subtype: bool,
    pub strict: bool,
    pub loose: bool,
    pub free: bool,
}

fn comparison_at(
    b: &[u8; TYPE_BYTES],
    l: &[u8; LINK_BYTES],
    c: Counts,
    t: usize,
    s: usize,
) -> Comparison
    requires { Checked l.now c }
    ensures { comparison_of result ≡ comparison_at (table_in b.now l.now c) t s }
{
    Comparison {
        subtype: related_at(b, l, c, Relation::Subtype, t, s),
        strict: related_at(b, l, c, Relation::Strict, t, s),
        loose: related_at(b, l, c, Relation::Loose, t, s),
        free: related_at(b, l, c, Relation::Free, t, s),
    }
}

// Compare, in a table that is checked: 7 for a number that names no type (R14).
fn compare_checked(
    b: &[u8; TYPE_BYTES],
    l: &[u8; LINK_BYTES],
    c: Counts,
    t: i64,
    s: i64,
) -> Result<Comparison, Refusal>
    requires { Checked l.now c }
    ensures { res_by comparison_of result ≡ compare (table_in b.now l.now c) t s }
{
    let x = base_numbers::index_of(t, c.types);
    let y = base_numbers::index_of(s, c.types);
    if c.types <= x || c.types <= y {
        return Err(Refusal::UnknownType);
    }
    Ok(comparison_at(b, l, c, x, y))
}

// Compare, on any table handed in: 2 before all else.
pub fn compare_types(
    b: &[u8; TYPE_BYTES],
    l: &[u8; LINK_BYTES],
    c: Counts,
    t: i64,
    s: i64,
) -> Result<Comparison, Refusal>
    ensures { res_by comparison_of result ≡ compare_handed (raw_table b.now l.now c) t s }
{
    if table_check::table_fits(b, l, c) {
        compare_checked(b, l, c, t, s)
    } else {
        Err(Refusal::OutOfRange)
    }
}

// A comparison in one byte.
pub fn pair_code(a: Comparison) -> u8
    ensures { result ≡ pair_code (comparison_of a) }
{
    u8::from(a.subtype) + 2 * u8::from(a.strict) + 4 * u8::from(a.loose) + 8 * u8::from(a.free)
}

// The comparison at a pair of sheet types; 0 where one is no sheet type.
fn pair_entry(b: &[u8; TYPE_BYTES], l: &[u8; LINK_BYTES], c: Counts, t: usize, s: usize) -> u8
    requires { Checked l.now c }
    ensures { result ≡ pair_entry (table_in b.now l.now c) t s }
{
    if c.sheet <= t || c.sheet <= s {
        return 0;
    }
    pair_code(comparison_at(b, l, c, t, s))
}

// The comparison at every pair of sheet types, that of (T, S) at T * 48 + S (B24).
pub fn pair_table(b: &[u8; TYPE_BYTES], l: &[u8; LINK_BYTES], c: Counts) -> [u8; PAIR_BYTES]
    requires { Checked l.now c }
    ensures { result ≡ pair_table (table_in b.now l.now c) }
{
    let mut out = [0u8; PAIR_BYTES];
    for p in 0..PAIR_BYTES {
        out[p] = pair_entry(b, l, c, p / Counts::SHEET_TYPES, p % Counts::SHEET_TYPES);
    }
    out
}

// The pair table, on any table handed in: 2 before all else.
pub fn pairs_of(
    b: &[u8; TYPE_BYTES],
    l: &[u8; LINK_BYTES],
    c: Counts,
) -> Result<[u8; PAIR_BYTES], Refusal>
    ensures { res_by (λ entries. entries) result ≡ pairs_handed (raw_table b.now l.now c) }
{
    if !table_check::table_fits(b, l, c) {
        return Err(Refusal::OutOfRange);
    }
    Ok(pair_table(b, l, c))
}
