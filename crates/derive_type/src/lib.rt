// Derivation (D): the record of a new type, from its two sides as they were read and the bytes of its slots: as it stands until its signatures are derived,
// and finished. What is derived for a slot, and the state of a method, are said in crate `derive_slots`.
#![tactic(auto)]

ghost use Rattle.std.specs.Prelude.{◌≡◌, cond, ◌≤◌, ◌<◌, min, ltb, length};
ghost use Rattle.spec_model.specs.Check.{method_of};
ghost use Rattle.spec_model.specs.Table.{max_methods};
ghost use Rattle.spec_model.specs.Records.{argument_slots};
ghost use Rattle.table_record.specs.Store.{kind_is, raw_method, raw_of, MethodExact};
ghost use Rattle.derive_type.specs.NewType.{fill, MethodCoded, bare_method, signed_method, main_of, record_by, pending_by, Finished};

use derive_slots::{METHOD_SLOTS, SLOT_BYTES, state_of};
use table_record::{Counts, Head, Key, Kind, KindCode, Method, TypeRec, permits};

// How many arguments both signatures have (D20), at most the four that a record has room for.
fn shared_count(x: u8, y: u8) -> usize
    ensures { result ≡ min (min x y) argument_slots }
{
    usize::from(x.min(y)).min(Method::SLOTS)
}

// The byte of argument i of so many: 0 past the last (B17).
fn argument_byte(x: u8, i: usize, count: usize) -> u8
    ensures { result ≡ cond (ltb i count) x 0 }
{
    if i < count { x } else { 0 }
}

// A method that isn't permitted has no signature, and no byte of one (B16).
fn unsigned(state: u8) -> Method
    ensures { raw_method result ≡ bare_method state }
{
    Method {
        state,
        count: 0,
        args: [0u8; Method::SLOTS],
        answer: 0,
    }
}

// A method with a signature of so many arguments.
fn signed(state: u8, count: usize, args: [u8; Method::SLOTS], answer: u8) -> Method
    requires { count ≤ argument_slots }
    ensures { raw_method result ≡ signed_method state count args answer }
{
    let a = argument_byte(args[0], 0, count);
    let b = argument_byte(args[1], 1, count);
    let c = argument_byte(args[2], 2, count);
    let d = argument_byte(args[3], 3, count);
    Method {
        state,
        count: count as u8,
        args: [a, b, c, d],
        answer,
    }
}

// A method of the derived type, from the bytes of its slots: the record that stands for what it means (B13).
fn filled(kind: Kind, p: Method, q: Method, args: [u8; Method::SLOTS], answer: u8) -> Method
    ensures is { method_of (raw_method result) ≡ fill (kind_is kind) (method_of (raw_method p)) (method_of (raw_method q)) args answer }
    ensures exact { MethodExact (raw_method result) }
    ensures coded { MethodCoded (raw_method p) → MethodCoded (raw_method result) }
{
    let state = state_of(kind, p.state, q.state);
    if permits(state) {
        signed(state, shared_count(p.count, q.count), args, answer)
    } else {
        unsigned(state)
    }
}

// The category of the side that a derived type keeps: the right one for Sup (D1, D3, D7).
fn category(kind: Kind, left: &TypeRec, right: &TypeRec) -> u8
    ensures { result ≡ (main_of (kind_is kind) left.now right.now).head.cat }
{
    match kind {
        Kind::Sup => right.head.cat,
        Kind::Sub | Kind::Closed => left.head.cat,
    }
}

// A new type at work: its key, and both sides as they were read. As it stands until its signatures are derived, its key may have any byte for its kind.
#[derive(Clone, Copy)]
pub struct Work<K = Kind> {
    pub key: Key<K>,
    pub left: TypeRec,
    pub right: TypeRec,
}

impl<K: KindCode> Work<K> {
    // A derived type is a reference type with own=no, known by its key (D11).
    fn new_type(&self, methods: [Method; Counts::METHODS]) -> TypeRec
        requires { (self.now.key.left < 256) × (self.now.key.right < 256) }
        ensures { (raw_of result ≡ record_by K.code K.meaning self.now (raw_of result).methods) × (result.methods ≡ methods) }
    {
        let head = Head {
            rep: Head::REF,
            cat: category(self.key.kind.meant(), &self.left, &self.right),
            own: 0,
            kind: self.key.kind.stored(),
            left: self.key.left as u8,
            right: self.key.right as u8,
        };
        TypeRec { head, methods }
    }

    // The type as it stands until its signatures are derived: every method is denied (D16).
    pub fn pending(&self) -> TypeRec
        requires { (self.now.key.left < 256) × (self.now.key.right < 256) }
        ensures { raw_of result ≡ pending_by K.code K.meaning self.now }
    {
        self.new_type([Method::empty(); Counts::METHODS])
    }
}

impl Work {
    // The derived type, from the bytes of its slots.
    pub fn finished(&self, methods: usize, slots: &[u8; SLOT_BYTES]) -> TypeRec
        requires { (self.now.key.left < 256) × (self.now.key.right < 256) × (methods ≤ max_methods) }
        ensures { Finished self.now methods slots.now result }
    {
        let mut all = [Method::empty(); Counts::METHODS];
        for j in 0..methods {
            let k = j * METHOD_SLOTS;
            let args = [slots[k], slots[k + 1], slots[k + 2], slots[k + 3]];
            all[j] = filled(
                self.key.kind,
                self.left.methods[j],
                self.right.methods[j],
                args,
                slots[k + Method::SLOTS],
            );
        }
        self.new_type(all)
    }
}
