// A relation at a pair of types (R3). The pair is related unless a pair that breaks its rule can be reached from it through signatures that both sides permit,
// so pairs are found in a queue, each once (crate `relation_found`), and the rule of each is asked. So a relation at a pair takes time linear in the pairs that
// can be reached, no heap, and never visits a pair twice.
#![tactic(auto)]

ghost use Rattle.std.specs.Prelude.{◌≡◌, ◌*◌, ◌/◌, ◌%◌, ◌≤◌, ◌<◌, get_or};
ghost use Rattle.spec_model.specs.Relations.{method_rule, rule, related};
ghost use Rattle.spec_model.specs.Table.{max_methods, max_types};
ghost use Rattle.table_record.specs.Store.{table_in, method_in};
ghost use Rattle.table_record.specs.Limits.{Checked};
ghost use Rattle.relation_states.specs.Asked.{relation_of};
ghost use Rattle.relation_states.specs.Squares.{Says};
ghost use Rattle.relation_found.specs.Found.{queue_in, ListedIn, MetIn, max_pairs};
ghost use Rattle.relation_search.specs.Search.{each_below, Clear};

use relation_states::Relation;
use table_record::{Counts, Head, LINK_BYTES, TYPE_BYTES};

// How many types few, some and many are, and the entries of the array for a search among so many: 128 for each type, so that a pair's number says both.
const FEW: usize = 16;

const FEW_PAIRS: usize = FEW * Counts::TYPES;

const SOME: usize = 64;

const SOME_PAIRS: usize = SOME * Counts::TYPES;

const MANY: usize = 80;

const MANY_PAIRS: usize = MANY * Counts::TYPES;

const PAIRS: usize = Counts::TYPES * Counts::TYPES;

// All methods of the reference types a and d.
fn find_methods(
    b: &[u8; TYPE_BYTES],
    found: &mut [u16],
    tail: usize,
    n: usize,
    methods: usize,
    k: Relation,
    square: &[[bool; 4]; 4],
    a: usize,
    d: usize,
) -> Option<usize>
    requires { ListedIn n found.old tail × Says (relation_of k) square.now × (a < max_types) × (d < max_types) × (methods ≤ max_methods) }
    ensures { MetIn n (λ M. each_below methods (λ j. method_rule (relation_of k) M (method_in b.now a j) (method_in b.now d j)))
        found.old tail found.new result }
{
    let mut t = tail;
    for j in 0..methods {
        t = relation_found::find_method(b, found, t, n, k, square, a, d, j)?;
    }
    Some(t)
}

// The rule of the pair (a, d).
fn find_types(
    b: &[u8; TYPE_BYTES],
    l: &[u8; LINK_BYTES],
    found: &mut [u16],
    tail: usize,
    c: Counts,
    k: Relation,
    square: &[[bool; 4]; 4],
    a: usize,
    d: usize,
) -> Option<usize>
    requires { ListedIn c.types found.old tail × Says (relation_of k) square.now × Checked l.now c × (a < c.types) × (d < c.types) }
    ensures { MetIn c.types (λ M. rule (relation_of k) (table_in b.now l.now c) M a d) found.old tail
        found.new result }
{
    let x = table_record::get_head(b, a);
    let y = table_record::get_head(b, d);
    if !relation_rule::outer_rule(l, c, k, x, y) {
        return None;
    }
    if x.rep != Head::REF {
        return Some(tail);
    }
    find_methods(b, found, tail, c.types, c.methods, k, square, a, d)
}

// The rule of the next pair in the queue.
fn find_next(
    b: &[u8; TYPE_BYTES],
    l: &[u8; LINK_BYTES],
    found: &mut [u16],
    tail: usize,
    head: usize,
    c: Counts,
    k: Relation,
    square: &[[bool; 4]; 4],
) -> Option<usize>
    requires { ListedIn c.types found.old tail × Says (relation_of k) square.now × Checked l.now c × (head < tail) }
    ensures { MetIn c.types
        (λ M. rule (relation_of k) (table_in b.now l.now c) M (get_or (queue_in found.old) head 0 / max_types)
        (get_or (queue_in found.old) head 0 % max_types))
        found.old tail found.new result }
{
    let p = usize::from(found[head]) % 32768;
    find_types(
        b,
        l,
        found,
        tail,
        c,
        k,
        square,
        p / Counts::TYPES,
        p % Counts::TYPES,
    )
}

// The search from (t, s) for a pair that breaks its rule, in an array that says nothing yet and has an entry for each pair.
fn search_in(
    b: &[u8; TYPE_BYTES],
    l: &[u8; LINK_BYTES],
    found: &mut [u16],
    c: Counts,
    k: Relation,
    square: &[[bool; 4]; 4],
    t: usize,
    s: usize,
) -> bool
    requires { Says (relation_of k) square.now × Checked l.now c × (t < c.types) × (s < c.types) × Clear c.types found.old }
    ensures { result ≡ related (relation_of k) (table_in b.now l.now c) t s }
{
    let mut tail = relation_found::add_pair(found, 0, t * Counts::TYPES + s);
    let mut head: usize = 0;
    while head < tail {
        let Some(r) = find_next(b, l, found, tail, head, c, k, square) else {
            return false;
        };
        tail = r;
        head += 1;
    }
    true
}

// The same in an array of N entries. It stays a function of its own for each length, so that only one array is on the stack at a time.
#[inline(never)]
fn search_within<const N: usize>(
    b: &[u8; TYPE_BYTES],
    l: &[u8; LINK_BYTES],
    c: Counts,
    k: Relation,
    square: &[[bool; 4]; 4],
    t: usize,
    s: usize,
) -> bool
    requires { Says (relation_of k) square.now × Checked l.now c × (t < c.types) × (s < c.types) × (c.types * max_types ≤ N) × (N ≤ max_pairs) }
    ensures { result ≡ related (relation_of k) (table_in b.now l.now c) t s }
{
    let mut found = [0u16; N];
    search_in(b, l, &mut found, c, k, square, t, s)
}

// In an array that is long enough for the table and no longer than it need be: to clear a long one takes more than most searches do.
fn search(
    b: &[u8; TYPE_BYTES],
    l: &[u8; LINK_BYTES],
    c: Counts,
    k: Relation,
    square: &[[bool; 4]; 4],
    t: usize,
    s: usize,
) -> bool
    requires { Says (relation_of k) square.now × Checked l.now c × (t < c.types) × (s < c.types) }
    ensures { result ≡ related (relation_of k) (table_in b.now l.now c) t s }
{
    if c.types <= FEW {
        return search_within::<FEW_PAIRS>(b, l, c, k, square, t, s);
    }
    if c.types <= SOME {
        return search_within::<SOME_PAIRS>(b, l, c, k, square, t, s);
    }
    if c.types <= MANY {
        return search_within::<MANY_PAIRS>(b, l, c, k, square, t, s);
    }
    search_within::<PAIRS>(b, l, c, k, square, t, s)
}

// Whether S is a subtype of T, or, in the other relations, whether T is related from S.
pub fn related_at(
    b: &[u8; TYPE_BYTES],
    l: &[u8; LINK_BYTES],
    c: Counts,
    k: Relation,
    t: usize,
    s: usize,
) -> bool
    requires { Checked l.now c }
    ensures { result ≡ related (relation_of k) (table_in b.now l.now c) t s }
{
    if c.types <= t || c.types <= s {
        return false;
    }
    let square = relation_states::state_square(k);
    search(b, l, c, k, &square, t, s)
}
