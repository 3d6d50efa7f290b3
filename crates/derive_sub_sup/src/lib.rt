// Sub and Sup (D) over the lent bytes of a type table, as two functions that call each other (F1). How a derivation begins and how its type is stored is in
// crate `derive_record`. Nothing below the count is ever written: what a refusal leaves past the count is open, every counted byte is as before (B22, B23).
// What the results mean is in specs/Link.antt.
#![tactic(auto)]

ghost use Rattle.std.specs.Prelude.{◌≡◌};
ghost use Rattle.spec_model.specs.Table.{sub, sup};
ghost use Rattle.derive_sub_sup.specs.Link.{Ready, Derives, Gives};

use derive_record::Derived;
use derive_slots::{METHOD_SLOTS, SLOT_BYTES, Slot};
use table_record::{Counts, Key, Kind, TYPE_BYTES};

// Sub(T,S), n being the types so far: arguments by Sup, answers by Sub (D5, D17).
// Kept: F1 asks that Sub and Sup are two functions that call each other, so each has the loop.
#[cycle(sub_sup)]
pub fn sub(b: &mut [u8; TYPE_BYTES], c: Counts, n: usize, t: usize, s: usize) -> Derived
    requires { Ready c n t s b.old }
    ensures { Gives sub c n t s b.old b.new result }
{
    let key = Key {
        kind: Kind::Sub,
        left: t,
        right: s,
    };
    if let Some(answer) = derive_record::begin(b, c, n, key) {
        return answer;
    }
    let w = derive_record::start(b, n, key);
    let mut bytes = [0u8; SLOT_BYTES];
    let mut m = n + 1;
    for k in 0..c.methods * METHOD_SLOTS {
        match derive_slots::slot_at(b, key, k) {
            Slot::Empty => {}
            Slot::Argument(l, r) => {
                let (i, count) = sup(b, c, m, l, r)?;
                bytes[k] = i as u8;
                m = count;
            }
            Slot::Answer(l, r) => {
                let (i, count) = sub(b, c, m, l, r)?;
                bytes[k] = (i + 1) as u8;
                m = count;
            }
        }
    }
    derive_record::finish(b, n, &w, c.methods, &bytes);
    Some((n, m))
}

// Sup(T,S): arguments by Sub, answers by Sup (D6, D17).
#[cycle(sub_sup)]
pub fn sup(b: &mut [u8; TYPE_BYTES], c: Counts, n: usize, t: usize, s: usize) -> Derived
    requires { Ready c n t s b.old }
    ensures { Gives sup c n t s b.old b.new result }
{
    let key = Key {
        kind: Kind::Sup,
        left: t,
        right: s,
    };
    if let Some(answer) = derive_record::begin(b, c, n, key) {
        return answer;
    }
    let w = derive_record::start(b, n, key);
    let mut bytes = [0u8; SLOT_BYTES];
    let mut m = n + 1;
    for k in 0..c.methods * METHOD_SLOTS {
        match derive_slots::slot_at(b, key, k) {
            Slot::Empty => {}
            Slot::Argument(l, r) => {
                let (i, count) = sub(b, c, m, l, r)?;
                bytes[k] = i as u8;
                m = count;
            }
            Slot::Answer(l, r) => {
                let (i, count) = sup(b, c, m, l, r)?;
                bytes[k] = (i + 1) as u8;
                m = count;
            }
        }
    }
    derive_record::finish(b, n, &w, c.methods, &bytes);
    Some((n, m))
}

// Sub(T,S), in the table of these bytes and counts.
// Kept: what may not change; docs name sub_type and sup_type, whose promise `Derives` is of the whole table and not of the first n types.
pub fn sub_type(b: &mut [u8; TYPE_BYTES], c: Counts, t: usize, s: usize) -> Derived
    requires { Ready c c.types t s b.old }
    ensures { Derives sub c t s b.old b.new result }
{
    sub(b, c, c.types, t, s)
}

// Sup(T,S).
pub fn sup_type(b: &mut [u8; TYPE_BYTES], c: Counts, t: usize, s: usize) -> Derived
    requires { Ready c c.types t s b.old }
    ensures { Derives sup c t s b.old b.new result }
{
    sup(b, c, c.types, t, s)
}
