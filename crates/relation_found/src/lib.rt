// What a search for a relation at a pair of types (R3, crate `relation_search`) has found, and what it finds through one method of a pair. Pairs are found in a
// queue, each once. One array has the queue and says which pairs are found (specs/Found.antt), so that one that is met again takes a test and no place. A step
// of the search comes to how many pairs are found then, or to none where a pair breaks its rule.
#![tactic(auto)]

ghost use Rattle.std.specs.Prelude.{◌≡◌, List, ℕ, ◌+◌, ◌≤◌, ◌<◌, leb, length, take};
ghost use Rattle.spec_model.specs.Relations.{args_rule, answer_rule, method_rule};
ghost use Rattle.spec_model.specs.Check.{answer_of};
ghost use Rattle.spec_model.specs.Table.{max_methods, max_types};
ghost use Rattle.spec_model.specs.Records.{argument_slots};
ghost use Rattle.table_record.specs.Store.{raw_in, method_in};
ghost use Rattle.relation_states.specs.Asked.{relation_of};
ghost use Rattle.relation_states.specs.Squares.{Says};
ghost use Rattle.relation_found.specs.Found.{Added, ListedIn, MetIn, max_pairs};

use relation_states::Relation;
use table_record::{
    Counts, Method, TYPE_BYTES, method_answer, method_argument, method_count, method_state,
};

// Whether an entry of the array says that the pair of its number is found: its top bit.
fn is_found(entry: u16) -> bool
    ensures { result ≡ leb 32768 entry }
{
    32768 <= entry
}

// The pair of number p is found, and joins the queue behind the `tail` pairs in it: the top bit of entry p, and the rest of entry `tail`.
pub fn add_pair(found: &mut [u16], tail: usize, p: usize) -> usize
    requires { (tail < length found.old) × (p < length found.old) × (length found.old ≤ max_pairs) }
    ensures { (result ≡ tail + 1) × Added found.old tail p found.new }
{
    found[p] = found[p] % 32768 + 32768;
    let top = usize::from(found[tail]) / 32768;
    found[tail] = (top * 32768 + p) as u16;
    tail + 1
}

// The pair (x, y) joins those found, of which there are `tail`, unless it is one of them. It breaks its rule if x or y is not in the table.
fn join_pair(found: &mut [u16], tail: usize, n: usize, x: usize, y: usize) -> Option<usize>
    requires { ListedIn n found.old tail }
    ensures { MetIn n (λ M. M x y) found.old tail found.new result }
{
    if n <= x || n <= y {
        return None;
    }
    let p = x * Counts::TYPES + y;
    if is_found(found[p]) {
        return Some(tail);
    }
    Some(add_pair(found, tail, p))
}

// The same. Most pairs that a search comes to are found already, and what is found is in the table: so that is asked first, behind one test of both numbers,
// neither of which is above x | y. Where the rows of the array are a power of two, every pair of the table passes that test; else some go the longer way.
fn find_pair(found: &mut [u16], tail: usize, n: usize, x: usize, y: usize) -> Option<usize>
    requires { ListedIn n found.old tail }
    ensures { MetIn n (λ M. M x y) found.old tail found.new result }
{
    let rows = found.len() / Counts::TYPES;
    if rows <= (x | y) {
        return join_pair(found, tail, n, x, y);
    }
    let p = x * Counts::TYPES + y;
    if is_found(found[p]) {
        return Some(tail);
    }
    if n <= x || n <= y {
        return None;
    }
    Some(add_pair(found, tail, p))
}

// How many of the four slots a count of arguments uses. A table that is checked has no count above them.
fn slots_used(count: u8) -> usize
    ensures { (result ≤ argument_slots) × ((xs : List ℕ) → length xs ≡ argument_slots → take count xs ≡ take result xs) }
{
    usize::from(count).min(Method::SLOTS)
}

// R4 and R6, at method j of the types a and d: as many arguments, and each related with the sides exchanged. Counts that are the same use as many slots.
fn find_arguments(
    b: &[u8; TYPE_BYTES],
    found: &mut [u16],
    tail: usize,
    n: usize,
    a: usize,
    d: usize,
    j: usize,
) -> Option<usize>
    requires { ListedIn n found.old tail × (a < max_types) × (d < max_types) × (j < max_methods) }
    ensures { MetIn n
        (λ M. args_rule M (take (raw_in b.now a j).count (raw_in b.now a j).args)
        (take (raw_in b.now d j).count (raw_in b.now d j).args))
        found.old tail found.new result }
{
    let count = method_count(b, a, j);
    let other = method_count(b, d, j);
    let used = slots_used(count);
    if count != other && used != slots_used(other) {
        return None;
    }
    let mut t = tail;
    for i in 0..used {
        let x = usize::from(method_argument(b, a, j, i));
        let y = usize::from(method_argument(b, d, j, i));
        t = find_pair(found, t, n, y, x)?;
    }
    Some(t)
}

// R4 and R5: both have an answer or neither, and then they are related in the direction of the pair.
fn find_answer(found: &mut [u16], tail: usize, n: usize, x: u8, y: u8) -> Option<usize>
    requires { ListedIn n found.old tail }
    ensures { MetIn n (λ M. answer_rule M (answer_of x) (answer_of y)) found.old tail found.new result }
{
    let a = usize::from(x);
    let d = usize::from(y);
    if a == 0 {
        return if d == 0 { Some(tail) } else { None };
    }
    if d == 0 {
        return None;
    }
    find_pair(found, tail, n, a - 1, d - 1)
}

// Method j of the types a and d. Its signatures are read only where both permit it (R7).
pub fn find_method(
    b: &[u8; TYPE_BYTES],
    found: &mut [u16],
    tail: usize,
    n: usize,
    k: Relation,
    square: &[[bool; 4]; 4],
    a: usize,
    d: usize,
    j: usize,
) -> Option<usize>
    requires { ListedIn n found.old tail × Says (relation_of k) square.now × (a < max_types) × (d < max_types) × (j < max_methods) }
    ensures { MetIn n (λ M. method_rule (relation_of k) M (method_in b.now a j) (method_in b.now d j)) found.old tail
        found.new result }
{
    let x = method_state(b, a, j);
    let y = method_state(b, d, j);
    if !relation_states::state_rule(square, k, x, y) {
        return None;
    }
    if !relation_states::both_permit(x, y) {
        return Some(tail);
    }
    let t = find_arguments(b, found, tail, n, a, d, j)?;
    find_answer(found, t, n, method_answer(b, a, j), method_answer(b, d, j))
}
