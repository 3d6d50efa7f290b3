// What the three derivations (D) share, over the lent bytes of a type table: the known type that answers at once, and the record of a new one, begun and
// finished. A new type takes the next number and stands there with every method denied until its signatures are derived; then it is stored once, whole. Both
// sides are read before anything is derived, and nothing below the count is ever written (B22). What the results mean is in specs/Begins.antt, the order in
// which signatures are derived in crate `derive_slots`, the record itself in `derive_type`.
#![tactic(auto)]

ghost use Rattle.std.specs.Prelude.{◌≡◌, ◌≢◌, true, ◌≤◌, ◌<◌, length, IfSome};
ghost use Rattle.spec_model.specs.Restriction.{find, without_new, main_side};
ghost use Rattle.spec_model.specs.Table.{max_methods, max_types};
ghost use Rattle.table_record.specs.Store.{kind_is, option_of, types_in, types_to, ref_in, with_count};
ghost use Rattle.table_record.specs.declared.Kind.TheVariants.{Closed};
ghost use Rattle.table_record.specs.Limits.{Limits};
ghost use Rattle.table_record.specs.Layout.{types_size};
ghost use Rattle.derive_record.specs.Begins.{Begins, OpenedBy, Stored, tabled};

use derive_slots::SLOT_BYTES;
use derive_type::Work;
use table_record::{Counts, Key, Kind, KindCode, TYPE_BYTES};

// What a derivation comes to: the type's number and how many types there are now; None where no number is free for it.
pub type Derived = Option<(usize, usize)>;

// The lowest of n types with this key. Sheet types are not searched (D14).
pub fn lookup(b: &[u8; TYPE_BYTES], c: Counts, n: usize, key: Key) -> Option<usize>
    requires { Limits (with_count c n) }
    ensures is { option_of result ≡ find (kind_is key.kind) key.left key.right 0 (types_to c.methods c.sheet n (types_in b.now)) }
    ensures below { IfSome result (λ i. i < n) }
{
    for i in c.sheet..n {
        if derive_slots::is_key(table_record::get_head(b, i), key) {
            return Some(i);
        }
    }
    None
}

// Of two reference types: the known type, or that the table is full; None where there is room for a new type (D14, D15).
pub fn search(b: &[u8; TYPE_BYTES], c: Counts, n: usize, key: Key) -> Option<Derived>
    requires { Limits (with_count c n) × (ref_in n b.now key.left ≡ true) × (ref_in n b.now key.right ≡ true) }
    ensures { Begins (λ T. find (kind_is key.kind) key.left key.right 0 (types_to c.methods c.sheet n (types_in b.now))) n key.left key.right b.now result }
{
    if let Some(known) = lookup(b, c, n, key) {
        return Some(Some((known, n)));
    }
    if n >= Counts::TYPES {
        return Some(None);
    }
    None
}

// The side that Sub or Sup keeps (D13).
fn main_side(key: Key) -> usize
    ensures { result ≡ main_side (kind_is key.kind) key.left key.right }
{
    match key.kind {
        Kind::Sup => key.right,
        Kind::Sub | Kind::Closed => key.left,
    }
}

// What a derivation comes to that needs no new type: Sub or Sup of a type with itself is that type, and of numbers the main side (D12, D13).
pub fn begin(b: &[u8; TYPE_BYTES], c: Counts, n: usize, key: Key) -> Option<Derived>
    requires { (key.kind ≢ Closed) × Limits (with_count c n) }
    ensures { Begins (λ T. without_new (tabled T c n b.now) (kind_is key.kind) key.left key.right) n key.left key.right b.now result }
{
    if key.left == key.right {
        return Some(Some((key.left, n)));
    }
    if !table_record::names_ref(b, n, key.left) || !table_record::names_ref(b, n, key.right) {
        return Some(Some((main_side(key), n)));
    }
    search(b, c, n, key)
}

// Both sides are read. The new type has its number from here on (D16); until its signatures are there every method of it is denied. Any byte may be the kind
// of its key (D11).
// It stays a function by itself, so that its records are not on the stack of each derivation that others are nested in.
#[inline(never)]
pub fn start<K: KindCode>(b: &mut [u8; TYPE_BYTES], n: usize, key: Key<K>) -> Work<K>
    requires { (n < max_types) × (key.left < max_types) × (key.right < max_types) × (length b.old ≡ types_size) }
    ensures { OpenedBy K.code K.meaning key n result b.old b.new }
{
    let w = Work {
        key,
        left: table_record::get_type(b, key.left),
        right: table_record::get_type(b, key.right),
    };
    table_store::put_type(b, n, w.pending());
    w
}

// The type at work is stored, whole (B13).
pub fn finish(
    b: &mut [u8; TYPE_BYTES],
    n: usize,
    w: &Work,
    methods: usize,
    bytes: &[u8; SLOT_BYTES],
)
    requires { (n < max_types) × (length b.old ≡ types_size) × (w.now.key.left < 256) × (w.now.key.right < 256) × (methods ≤ max_methods) }
    ensures { Stored w.now methods n bytes.now b.old b.new }
{
    table_store::put_type(b, n, w.finished(methods, bytes));
}
