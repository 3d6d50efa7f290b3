// The types of a sheet (docs/SPEC.md S25): the lines of each are read as the record of the type, and it is stored in lent bytes by crate `table_store`.
// What comes of the lines is crate `spec_sheet`'s definition `one_type`. One line is read by `text_read`, `sheet_read_line` or `sheet_read_method`.
#![tactic(auto)]

ghost use Rattle.std.specs.Prelude.{◌≡◌, false, [], map, ℕ, ◌≤◌, ◌<◌, length, take, drop, IfOk, OnOk};
ghost use Rattle.spec_model.specs.Table.{max_methods, max_categories, max_sheet_types};
ghost use Rattle.spec_model.specs.Relations.{bit};
ghost use Rattle.spec_model.specs.Check.{rep_of, type_of};
ghost use Rattle.table_record.specs.Store.{types_in, raw_of, types_to, empty_types, TypeExact};
ghost use Rattle.table_record.specs.Records.{type_bytes};
ghost use Rattle.spec_sheet.specs.Lines.{split, times};
ghost use Rattle.spec_sheet.specs.Sheet.{sheet_type, one_type};
ghost use Rattle.text_read.specs.View.{reading_by};
ghost use Rattle.sheet_read_method.specs.View.{method_is};
ghost use Rattle.sheet_read_type.specs.View.{done_by, MethodsExact, each_method, members_read};

use sheet_read_line::{next_own, next_rep};
use sheet_read_method::next_method;
use table_record::{Counts, Head, Method, TYPE_BYTES, TypeRec};
use text_cursor::Cursor;
use text_read::{Malformed, next_number};

// The `m=` lines of a type: m of them, of a sheet with n types.
fn methods_at(
    s: &[u8],
    c: Cursor,
    m: usize,
    n: usize,
) -> Result<([Method; Counts::METHODS], Cursor), Malformed>
    requires { (m ≤ max_methods) × (n ≤ max_sheet_types) }
    ensures is { reading_by (λ l. map method_is (take m l)) s.now result
        ≡ times (each_method n) m 0 [] c.at (split (drop c.at s.now)) }
    ensures exact { IfOk result (λ r. MethodsExact m r.0 × (length r.0 ≡ max_methods)) }
{
    let mut list = [Method::empty(); Counts::METHODS];
    let mut at = c;
    for j in 0..m {
        let (x, next) = next_method(s, at, n)?;
        list[j] = x;
        at = next;
    }
    Ok((list, at))
}

// The head of a sheet type: kind, left and right are 0 (B14).
fn sheet_head(rep: u8, cat: usize, own: bool) -> Head
    requires { cat ≤ max_categories }
    ensures { result ≡ record { rep = rep; cat = cat; own = bit own; kind = 0; left = 0; right = 0 } }
{
    Head {
        rep,
        cat: cat as u8,
        own: u8::from(own),
        kind: 0,
        left: 0,
        right: 0,
    }
}

// A number type: neither own nor methods (B15).
fn number_type(rep: u8, cat: usize) -> TypeRec
    requires { (0 < rep) × (rep ≤ 2) × (cat ≤ max_categories) }
    ensures is { (m n i : ℕ) → i < n → type_of m n i (raw_of result) ≡ sheet_type (rep_of rep) cat false [] }
    ensures exact { (m n i : ℕ) → i < n → TypeExact m n i (raw_of result) }
{
    TypeRec {
        head: sheet_head(rep, cat, false),
        methods: [Method::empty(); Counts::METHODS],
    }
}

// What a reference type has behind its `cat=` line (S25): m methods, of a sheet with n types.
fn ref_type(
    s: &[u8],
    c: Cursor,
    cat: usize,
    m: usize,
    n: usize,
) -> Result<(TypeRec, Cursor), Malformed>
    requires { (cat ≤ max_categories) × (m ≤ max_methods) × (n ≤ max_sheet_types) }
    ensures is { (i : ℕ) → i < n
        → reading_by (λ t. type_of m n i (raw_of t)) s.now result
        ≡ members_read m n cat c.at (split (drop c.at s.now)) }
    ensures exact { (i : ℕ) → i < n → IfOk result (λ r. TypeExact m n i (raw_of r.0)) }
{
    let (own, c) = next_own(s, c)?;
    let (methods, c) = methods_at(s, c, m, n)?;
    let head = sheet_head(Head::REF, cat, own);
    Ok((TypeRec { head, methods }, c))
}

// The block of type i of n (S25). A number out of turn is 2 (S30).
fn one_type(
    s: &[u8],
    c: Cursor,
    i: usize,
    m: usize,
    cats: usize,
    n: usize,
) -> Result<(TypeRec, Cursor), Malformed>
    requires { (i < n) × (n ≤ max_sheet_types) × (m ≤ max_methods) × (cats ≤ max_categories) }
    ensures is { reading_by (λ t. type_of m n i (raw_of t)) s.now result ≡ one_type m cats n i c.at (split (drop c.at s.now)) }
    ensures exact { IfOk result (λ r. TypeExact m n i (raw_of r.0)) }
{
    let (_, c) = next_number(s, c, b"type=", i, i)?;
    let (rep, c) = next_rep(s, c)?;
    let (cat, c) = next_number(s, c, b"cat=", 0, cats)?;
    if rep == Head::REF {
        return ref_type(s, c, cat, m, n);
    }
    Ok((number_type(rep, cat), c))
}

// The n types of a sheet, stored in lent bytes that hold nothing; the cursor stands behind them.
pub fn types_into(
    s: &[u8],
    c: Cursor,
    m: usize,
    cats: usize,
    n: usize,
    b: &mut [u8; TYPE_BYTES],
) -> Result<Cursor, Malformed>
    requires { (m ≤ max_methods) × (cats ≤ max_categories) × (n ≤ max_sheet_types) × (b.old ≡ empty_types) }
    ensures is { done_by s.now (types_to m n n (types_in b.new)) result
        ≡ times (one_type m cats n) n 0 [] c.at (split (drop c.at s.now)) }
    ensures exact { OnOk result (b.new ≡ type_bytes (types_to m n n (types_in b.new))) }
{
    let mut at = c;
    for i in 0..n {
        let (t, next) = one_type(s, at, i, m, cats, n)?;
        table_store::put_type(b, i, t);
        at = next;
    }
    Ok(at)
}
