// Closed(R,V) (D) over the lent bytes of a type table: of two reference types, with signatures by Sub and Sup (crate `derive_sub_sup`), and of two number
// types.
#![tactic(auto)]

ghost use Rattle.std.specs.Prelude.{◌≡◌, true, ◌<◌};
ghost use Rattle.spec_model.specs.Table.{closed};
ghost use Rattle.table_record.specs.Store.{raw_of, ref_in};
ghost use Rattle.derive_sub_sup.specs.Link.{Ready, Derives, Gives};
ghost use Rattle.derive_closed.specs.Numbers.{Alike, NumberIn, NumberRep, NumberType};

use derive_record::Derived;
use derive_slots::{METHOD_SLOTS, SLOT_BYTES, Slot};
use table_record::{Counts, Head, Key, Kind, Method, TYPE_BYTES, TypeRec};

// Closed(R,V) of two reference types, with the signatures of Sub(R,V), which takes no number itself (D9, D10).
// Kept: F1; Sub and Sup call each other by name, so that the loop stands here once more and not in a function that takes them.
fn closed(b: &mut [u8; TYPE_BYTES], c: Counts, r: usize, v: usize) -> Derived
    requires { Ready c c.types r v b.old × (ref_in c.types b.old r ≡ true) × (ref_in c.types b.old v ≡ true) }
    ensures { Gives closed c c.types r v b.old b.new result }
{
    let key = Key {
        kind: Kind::Closed,
        left: r,
        right: v,
    };
    if let Some(answer) = derive_record::search(b, c, c.types, key) {
        return answer;
    }
    let w = derive_record::start(b, c.types, key);
    let mut bytes = [0u8; SLOT_BYTES];
    let mut m = c.types + 1;
    for k in 0..c.methods * METHOD_SLOTS {
        match derive_slots::slot_at(b, key, k) {
            Slot::Empty => {}
            Slot::Argument(left, right) => {
                let (i, count) = derive_sub_sup::sup(b, c, m, left, right)?;
                bytes[k] = i as u8;
                m = count;
            }
            Slot::Answer(left, right) => {
                let (i, count) = derive_sub_sup::sub(b, c, m, left, right)?;
                bytes[k] = (i + 1) as u8;
                m = count;
            }
        }
    }
    derive_record::finish(b, c.types, &w, c.methods, &bytes);
    Some((c.types, m))
}

// A number type's representation as it is stored: a code past the last is read as w64's.
fn number_rep(x: u8) -> u8
    ensures { NumberRep x result }
{
    if x == Head::W32 { Head::W32 } else { Head::W64 }
}

// Closed(R,V) of two number types, from R's head: no methods.
fn number_type(h: Head, r: usize, v: usize) -> TypeRec
    requires { (r < 256) × (v < 256) }
    ensures { NumberType h r v (raw_of result) }
{
    let head = Head {
        rep: number_rep(h.rep),
        cat: h.cat,
        own: 0,
        kind: Kind::Closed.code(),
        left: r as u8,
        right: v as u8,
    };
    let methods = [Method::empty(); Counts::METHODS];
    TypeRec { head, methods }
}

// Closed(R,V) of two number types. Only derived types that were handed in make a crossing ask for it (H14).
fn closed_numbers(b: &mut [u8; TYPE_BYTES], c: Counts, r: usize, v: usize) -> Derived
    requires { Ready c c.types r v b.old × NumberIn c.types b.old r × NumberIn c.types b.old v }
    ensures { Gives closed c c.types r v b.old b.new result }
{
    let n = c.types;
    let key = Key {
        kind: Kind::Closed,
        left: r,
        right: v,
    };
    if let Some(known) = derive_record::lookup(b, c, n, key) {
        return Some((known, n));
    }
    if Counts::TYPES <= n {
        return None;
    }
    let h = table_record::get_head(b, r);
    table_store::put_type(b, n, number_type(h, r, v));
    Some((n, n + 1))
}

// Closed(R,V) of two reference types or of two number types, as a crossing asks for it.
pub fn closed_any(b: &mut [u8; TYPE_BYTES], c: Counts, r: usize, v: usize) -> Derived
    requires { Ready c c.types r v b.old × Alike c.types b.old r v }
    ensures { Derives closed c r v b.old b.new result }
{
    if table_record::names_ref(b, c.types, r) {
        return closed(b, c, r, v);
    }
    closed_numbers(b, c, r, v)
}

// Closed(R,V).
pub fn closed_type(b: &mut [u8; TYPE_BYTES], c: Counts, r: usize, v: usize) -> Derived
    requires { Ready c c.types r v b.old × (ref_in c.types b.old r ≡ true) × (ref_in c.types b.old v ≡ true) }
    ensures { Derives closed c r v b.old b.new result }
{
    closed(b, c, r, v)
}
