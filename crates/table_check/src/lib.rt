// The check of a table that is handed in (H1 to H8, of the table's part), for any bytes and any counts: counts first, so that every index is below its count,
// then the broader links (both in crate `table_check_links`), then each type with its signatures.
#![tactic(auto)]

ghost use Rattle.std.specs.Prelude.{◌≡◌, ◌≤◌, ◌<◌, get_or};
ghost use Rattle.spec_model.specs.Table.{max_methods, max_types};
ghost use Rattle.spec_model.specs.Check.{no_raw_type, table_accepted};
ghost use Rattle.spec_model.specs.Records.{argument_slots};
ghost use Rattle.table_record.specs.Store.{types_in, raw_table, raw_method};
ghost use Rattle.table_record.specs.Limits.{Limits};
ghost use Rattle.table_check.specs.Parts.{stands_as, signature_accepted, method_accepted};
ghost use Rattle.table_check.specs.Parts.{methods_accepted, key_accepted, head_accepted, bound_of, type_accepted, types_accepted, args_accepted};

use table_record::{Counts, Head, Kind, LINK_BYTES, Method, TYPE_BYTES};

// Whether type a may stand in a signature whose types are the first n (T14).
fn stands_in(b: &[u8; TYPE_BYTES], n: usize, a: usize) -> bool
    requires { n ≤ max_types }
    ensures { result ≡ stands_as (types_in b.now) n a }
{
    a < n && table_record::may_stand(b, a)
}

// The argument types of a method.
fn args_fit(b: &[u8; TYPE_BYTES], n: usize, m: Method) -> bool
    requires { (n ≤ max_types) × (m.count ≤ argument_slots) }
    ensures { result ≡ args_accepted (types_in b.now) n (raw_method m) }
{
    for x in &m.args[..usize::from(m.count)] {
        if !stands_in(b, n, usize::from(*x)) {
            return false;
        }
    }
    true
}

// T13: the arguments and the answer of a signature whose types are the first n.
fn signature_fits(b: &[u8; TYPE_BYTES], n: usize, m: Method) -> bool
    requires { n ≤ max_types }
    ensures { result ≡ signature_accepted (types_in b.now) n (raw_method m) }
{
    let answer = usize::from(m.answer);
    usize::from(m.count) <= Counts::ARGUMENTS
        && args_fit(b, n, m)
        && (answer == 0 || stands_in(b, n, answer - 1))
}

// T12: only optional and avail have a signature. What stands beside another state is not looked at (H15).
fn method_fits(b: &[u8; TYPE_BYTES], n: usize, m: Method) -> bool
    requires { n ≤ max_types }
    ensures { result ≡ method_accepted (types_in b.now) n (raw_method m) }
{
    match m.state {
        Method::DENIED | Method::UNAVAIL => true,
        Method::OPTIONAL | Method::AVAIL => signature_fits(b, n, m),
        _ => false,
    }
}

// The methods of type i, whose signatures hold types below n.
fn methods_fit(b: &[u8; TYPE_BYTES], i: usize, n: usize, methods: usize) -> bool
    requires { (i < max_types) × (n ≤ max_types) × (methods ≤ max_methods) }
    ensures { result ≡ methods_accepted (types_in b.now) n methods (get_or (types_in b.now) i no_raw_type) }
{
    for j in 0..methods {
        if !method_fits(b, n, table_record::get_method(b, i, j)) {
            return false;
        }
    }
    true
}

// T17: only a derived type has a kind, a left and a right.
fn key_fits(h: Head, c: Counts, i: usize) -> bool
    ensures { result ≡ key_accepted c i h }
{
    i < c.sheet
        || (h.kind <= Kind::Closed.code()
            && usize::from(h.left) < c.types
            && usize::from(h.right) < c.types)
}

fn head_fits(h: Head, c: Counts, i: usize) -> bool
    ensures { result ≡ head_accepted c i h }
{
    h.rep <= Head::W64 && usize::from(h.cat) <= c.cats && key_fits(h, c, i)
}

// T15: the types that may stand in the signatures of type i are the first so many.
fn bound(c: Counts, i: usize) -> usize
    requires { Limits c }
    ensures { (result ≡ bound_of c i) × (result ≤ max_types) }
{
    if i < c.sheet { c.sheet } else { c.types }
}

// Type i: a number type has neither own flag nor methods (T11).
fn type_fits(b: &[u8; TYPE_BYTES], c: Counts, i: usize) -> bool
    requires { Limits c × (i < c.types) }
    ensures { result ≡ type_accepted (types_in b.now) c i (get_or (types_in b.now) i no_raw_type) }
{
    let h = table_record::get_head(b, i);
    head_fits(h, c, i)
        && (h.rep != Head::REF || (h.own <= Head::OWN && methods_fit(b, i, bound(c, i), c.methods)))
}

fn types_fit(b: &[u8; TYPE_BYTES], c: Counts) -> bool
    requires { Limits c }
    ensures { result ≡ types_accepted (types_in b.now) c }
{
    for i in 0..c.types {
        if !type_fits(b, c, i) {
            return false;
        }
    }
    true
}

// Whether a table that is handed in is taken: b the bytes of the types, l those of the broader links.
pub fn table_fits(b: &[u8; TYPE_BYTES], l: &[u8; LINK_BYTES], c: Counts) -> bool
    ensures { result ≡ table_accepted (raw_table b.now l.now c) }
{
    table_check_links::counts_fit(c) && table_check_links::links_fit(l, c.cats) && types_fit(b, c)
}
