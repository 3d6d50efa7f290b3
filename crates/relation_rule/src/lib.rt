// What a relation asks of a pair of types (T, S) without their methods (R8 to R13): representation, category, own. The states of a method are compared in
// crate `relation_states`; the pairs that signatures lead to are found in crate `relation_found`.
#![tactic(auto)]

ghost use Rattle.std.specs.Prelude.{◌≡◌, List, ℕ, suc, ◌<◌};
ghost use Rattle.spec_model.specs.Basics.{◌⇒◌};
ghost use Rattle.spec_model.specs.Table.{max_categories};
ghost use Rattle.spec_model.specs.Relations.{same_rep, same_sort, cat_le};
ghost use Rattle.spec_model.specs.Check.{rep_of};
ghost use Rattle.table_record.specs.Store.{table_in};
ghost use Rattle.table_record.specs.Limits.{Checked};
ghost use Rattle.relation_states.specs.Asked.{relation_of};
ghost use Rattle.relation_rule.specs.Parts.{exact, ordered, owned, rep_rule, head_owns, outer_heads, broader_in, cat_next};

use relation_states::Relation;
use table_record::{Counts, Head, LINK_BYTES};

// Whether category a ≤ x, where `done` says it of the categories below x.
fn category_next(
    l: &[u8; LINK_BYTES],
    done: &[bool; Counts::CATEGORIES + 1],
    c: Counts,
    a: usize,
    x: usize,
) -> bool
    requires { Checked l.now c × (x < suc max_categories) }
    ensures { result ≡ cat_next (broader_in l.now c) done.now a x }
{
    if a == 0 || a == x {
        return true;
    }
    if x == 0 || c.cats < x {
        return false;
    }
    let k = table_record::get_links(l, x);
    done[usize::from(k.first)] || (k.count == 2 && done[usize::from(k.second)])
}

// T7, category a ≤ b: where that is not plain, asked of each category below b, from 0 up, and then of b.
fn category_le(l: &[u8; LINK_BYTES], c: Counts, a: usize, b: usize) -> bool
    requires { Checked l.now c }
    ensures { (types : List ℕ) → result ≡ cat_le (table_in types l.now c) a b }
{
    if a == 0 || a == b {
        return true;
    }
    if c.cats < b {
        return false;
    }
    let mut done = [false; Counts::CATEGORIES + 1];
    for x in 0..b {
        done[x] = category_next(l, &done, c, a, x);
    }
    category_next(l, &done, c, a, b)
}

// The same representation. A code that names none is read as w64.
fn same_rep(x: u8, y: u8) -> bool
    ensures { result ≡ same_rep (rep_of x) (rep_of y) }
{
    match x {
        Head::REF => y == Head::REF,
        Head::W32 => y == Head::W32,
        _ => Head::W64 <= y,
    }
}

// Both ref or both numbers.
fn same_sort(x: u8, y: u8) -> bool
    ensures { result ≡ same_sort (rep_of x) (rep_of y) }
{
    (x == Head::REF) == (y == Head::REF)
}

// Which relations ask for the same representation.
fn asks_rep(k: Relation) -> bool
    ensures { result ≡ exact (relation_of k) }
{
    matches!(k, Relation::Subtype | Relation::Conforms)
}

// Which ask that the category of T ≤ that of S.
fn asks_category(k: Relation) -> bool
    ensures { result ≡ ordered (relation_of k) }
{
    matches!(k, Relation::Subtype | Relation::Conforms | Relation::Strict)
}

// Which ask that T is own only if S is own.
fn asks_own(k: Relation) -> bool
    ensures { result ≡ owned (relation_of k) }
{
    matches!(k, Relation::Subtype)
}

fn rep_rule(k: Relation, x: u8, y: u8) -> bool
    ensures { result ≡ rep_rule (relation_of k) (rep_of x) (rep_of y) }
{
    if asks_rep(k) {
        same_rep(x, y)
    } else {
        same_sort(x, y)
    }
}

fn category_rule(l: &[u8; LINK_BYTES], c: Counts, k: Relation, x: u8, y: u8) -> bool
    requires { Checked l.now c }
    ensures { (types : List ℕ) → result ≡ (ordered (relation_of k) ⇒ cat_le (table_in types l.now c) x y) }
{
    !asks_category(k) || category_le(l, c, usize::from(x), usize::from(y))
}

// The own flag, which a number type has not.
fn owns(x: Head) -> bool
    ensures { result ≡ head_owns x }
{
    x.rep == Head::REF && x.own == Head::OWN
}

fn own_rule(k: Relation, x: Head, y: Head) -> bool
    ensures { result ≡ (owned (relation_of k) ⇒ (head_owns x ⇒ head_owns y)) }
{
    !asks_own(k) || !owns(x) || owns(y)
}

// What a relation asks of representation, category and own flag of T and S.
pub fn outer_rule(l: &[u8; LINK_BYTES], c: Counts, k: Relation, x: Head, y: Head) -> bool
    requires { Checked l.now c }
    ensures { (types : List ℕ) → result ≡ outer_heads (relation_of k) (table_in types l.now c) x y }
{
    rep_rule(k, x.rep, y.rep) && category_rule(l, c, k, x.cat, y.cat) && own_rule(k, x, y)
}
