// Derivation (D): whether a type has a key, and what a new type gets from its two sides: the state of each method, and its signature slot by slot. What is
// derived for a slot is said here, not derived; crate `derive_sub_sup` does that. Five slots to a method, four arguments and the answer (D17).
#![tactic(auto)]

ghost use Rattle.std.specs.Prelude.{◌≡◌, ◌<◌, take};
ghost use Rattle.spec_model.specs.Restriction.{restricted, is_key};
ghost use Rattle.spec_model.specs.Check.{state_of, kind_of, answer_of, method_of};
ghost use Rattle.spec_model.specs.Table.{max_types};
ghost use Rattle.spec_model.specs.Records.{argument_slots};
ghost use Rattle.table_record.specs.Store.{kind_is, raw_method};
ghost use Rattle.derive_slots.specs.Slots.{answer_slot, argument_slot, slot_of, slot_at, method_at, Low, method_slots, slots_size, key_in, kept_state};

use table_record::{Counts, Head, Key, Kind, Method, TYPE_BYTES, get_method, permits};

// The slots of a method, and those of all methods, a byte to each.
pub const METHOD_SLOTS: usize = Method::SLOTS + 1;

pub const SLOT_BYTES: usize = Counts::METHODS * METHOD_SLOTS;

// What is derived for a slot of a new type: nothing, an argument or an answer, from these two types.
#[derive(Clone, Copy, Debug, PartialEq, Eq)]
pub enum Slot {
    Empty,
    Argument(usize, usize),
    Answer(usize, usize),
}

// Whether a derived type's head has this key (D14). The left number comes first: it tells most types apart, the kind few.
pub fn is_key(h: Head, key: Key) -> bool
    ensures { result ≡ is_key (kind_is key.kind) key.left key.right (key_in h) }
{
    key.left == usize::from(h.left)
        && key.right == usize::from(h.right)
        && key.kind == Kind::from(h.kind)
}

// A code past the last state is read as unavail, and stored as unavail's (B8).
// Kept: rule H15; methods of a number type are not looked at, so that any byte may stand for a state, and states are bytes here.
fn state_code(x: u8) -> u8
    ensures { (state_of result ≡ state_of x) × (result < 4) }
{
    x.min(Method::UNAVAIL)
}

// The main side's state, except that a method it permits and the other doesn't is lost (D2, D4).
fn kept_state(main: u8, other: u8, lost: u8) -> u8
    requires { lost < 4 }
    ensures { (state_of result ≡ kept_state (state_of main) (state_of other) (state_of lost)) × (result < 4) }
{
    if permits(main) && !permits(other) {
        lost
    } else {
        state_code(main)
    }
}

// The state of a method in the derived type, from its states on the left and on the right (D2, D4, D8).
pub fn state_of(kind: Kind, x: u8, y: u8) -> u8
    ensures { (state_of result ≡ restricted (kind_is kind) (state_of x) (state_of y)) × (result < 4) }
{
    match kind {
        Kind::Sub => kept_state(x, y, Method::UNAVAIL),
        Kind::Sup => kept_state(y, x, Method::DENIED),
        Kind::Closed if y == Method::AVAIL && permits(x) => Method::AVAIL,
        Kind::Closed => Method::UNAVAIL,
    }
}

// The answer slot, from the answer bytes of both sides.
fn answer_slot(x: u8, y: u8) -> Slot
    ensures { (result ≡ answer_slot (answer_of x) (answer_of y)) × Low result }
{
    if x == 0 || y == 0 {
        Slot::Empty
    } else {
        Slot::Answer(usize::from(x) - 1, usize::from(y) - 1)
    }
}

// Argument slot i: the sides are exchanged, the right side's argument on the left (D5, D6).
fn argument_slot(p: Method, q: Method, i: usize) -> Slot
    requires { i < argument_slots }
    ensures { (result ≡ argument_slot i (take p.count p.args) (take q.count q.args)) × Low result }
{
    if usize::from(p.count.min(q.count)) <= i {
        return Slot::Empty;
    }
    let left = q.argument(i);
    let right = p.argument(i);
    Slot::Argument(left, right)
}

// Slot i of a method: four arguments, then the answer; nothing where the derived type doesn't permit the method.
fn slot_of(kind: Kind, p: Method, q: Method, i: usize) -> Slot
    requires { i < method_slots }
    ensures { (result ≡ slot_of (kind_is kind) (method_of (raw_method p)) (method_of (raw_method q)) i) × Low result }
{
    if !permits(state_of(kind, p.state, q.state)) {
        Slot::Empty
    } else if i == Method::SLOTS {
        answer_slot(p.answer, q.answer)
    } else {
        argument_slot(p, q, i)
    }
}

// Slot k of all, five to a method, of the types that the key names.
pub fn slot_at(b: &[u8; TYPE_BYTES], key: Key, k: usize) -> Slot
    requires { (key.left < max_types) × (key.right < max_types) × (k < slots_size) }
    ensures { (result ≡ slot_at (kind_is key.kind) (method_at b.now key.left) (method_at b.now key.right) k) × Low result }
{
    let j = k / METHOD_SLOTS;
    let p = get_method(b, key.left, j);
    let q = get_method(b, key.right, j);
    slot_of(key.kind, p, q, k % METHOD_SLOTS)
}
