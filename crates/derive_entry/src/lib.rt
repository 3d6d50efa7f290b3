// Sub, Sup and Closed on any table handed in, by the codes of the three kinds and signed numbers of types. A derivation is no request: the requests derive
// types as they cross. What comes of it is the definition `derive_handed` in specs/Handed.antt.
#![tactic(auto)]

ghost use Rattle.std.specs.Prelude.{◌≡◌, true, ◌&&◌, List, ℕ, ◌≤◌, ◌<◌};
ghost use Rattle.spec_model.specs.Restriction.{derived};
ghost use Rattle.spec_model.specs.Table.{max_types};
ghost use Rattle.spec_model.specs.Records.{kind_code};
ghost use Rattle.table_record.specs.Store.{kind_is, raw_table, table_in, ref_in};
ghost use Rattle.table_record.specs.Limits.{Limits};
ghost use Rattle.derive_sub_sup.specs.Link.{Ready, Derives};
ghost use Rattle.derive_entry.specs.Handed.{kind_asked, derive_named, derive_handed};
ghost use Rattle.derive_entry.specs.Result.{Asked, DerivesHanded, left};

use base_numbers::index_of;
use base_numbers::refusal::Refusal;
use derive_record::Derived;
use table_record::{Counts, Kind, LINK_BYTES, TYPE_BYTES, names_ref};

// The kind that a code asks for: one of the three, Closed only of two reference types.
// Kept: the C interface; a kind is asked for by a number, any number.
fn asked(b: &[u8; TYPE_BYTES], n: usize, kind: usize, t: usize, s: usize) -> Option<Kind>
    requires { n ≤ max_types }
    ensures { Asked kind (ref_in n b.now t && ref_in n b.now s) result }
{
    match kind {
        0 => Some(Kind::Sub),
        1 => Some(Kind::Sup),
        2 if names_ref(b, n, t) && names_ref(b, n, s) => Some(Kind::Closed),
        _ => None,
    }
}

// One of the three, over lent bytes.
fn derive_kind(b: &mut [u8; TYPE_BYTES], c: Counts, kind: Kind, t: usize, s: usize) -> Derived
    requires { Ready c c.types t s b.old × (kind_asked (kind_code (kind_is kind)) (ref_in c.types b.old t && ref_in c.types b.old s) ≡ true) }
    ensures { Derives (kind_is kind) c t s b.old b.new result }
{
    match kind {
        Kind::Sub => derive_sub_sup::sub_type(b, c, t, s),
        Kind::Sup => derive_sub_sup::sup_type(b, c, t, s),
        Kind::Closed => derive_closed::closed_type(b, c, t, s),
    }
}

// The bytes are put back where the table is full (B23).
fn derive_checked(
    b: &mut [u8; TYPE_BYTES],
    c: Counts,
    kind: Kind,
    t: usize,
    s: usize,
) -> Result<(usize, usize), Refusal>
    requires { Limits c × (t < c.types) × (s < c.types) × (kind_asked (kind_code (kind_is kind)) (ref_in c.types b.old t && ref_in c.types b.old s) ≡ true) }
    ensures { (l : List ℕ) → DerivesHanded b.old l c (derived (table_in b.old l c) (kind_is kind) t s) (left c result b.new) }
{
    let old = *b;
    match derive_kind(b, c, kind, t, s) {
        Some(made) => Ok(made),
        None => {
            *b = old;
            Err(Refusal::TypesFull)
        }
    }
}

// By the numbers of the types, in a table that is checked.
fn derive_named(
    b: &mut [u8; TYPE_BYTES],
    c: Counts,
    kind: usize,
    t: i64,
    s: i64,
) -> Result<(usize, usize), Refusal>
    requires { Limits c }
    ensures { (l : List ℕ) → DerivesHanded b.old l c (derive_named (table_in b.old l c) kind t s) (left c result b.new) }
{
    let x = index_of(t, c.types);
    if c.types <= x {
        return Err(Refusal::UnknownType);
    }
    let y = index_of(s, c.types);
    if c.types <= y {
        return Err(Refusal::UnknownType);
    }
    match asked(b, c.types, kind, x, y) {
        Some(kind) => derive_checked(b, c, kind, x, y),
        None => Err(Refusal::UnknownType),
    }
}

// On any table handed in, whose types' bytes are lent: 2 before all else, then 7 where a number names no type or there is no such derived type, then 11 where the
// table is full. Else the derived type's number and how many types there are now.
pub fn derive(
    b: &mut [u8; TYPE_BYTES],
    l: &[u8; LINK_BYTES],
    c: Counts,
    kind: usize,
    t: i64,
    s: i64,
) -> Result<(usize, usize), Refusal>
    ensures { DerivesHanded b.old l.now c (derive_handed (raw_table b.old l.now c) kind t s)
        (left c result b.new) }
{
    if table_check::table_fits(b, l, c) {
        derive_named(b, c, kind, t, s)
    } else {
        Err(Refusal::OutOfRange)
    }
}
