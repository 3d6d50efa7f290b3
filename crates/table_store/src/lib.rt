// Records of types and of broader links stored in the bytes of a table, whole (B13). What stands where in the bytes is said in
// crates/table_record/specs/Layout.antt.
#![tactic(auto)]

ghost use Rattle.std.specs.Prelude.{◌≡◌, suc, ◌+◌, ◌*◌, ◌≤◌, ◌<◌, length};
ghost use Rattle.std.proofs.lemmas.List.Edits.{sets};
ghost use Rattle.table_record.specs.Store.{raw_method, raw_of, raw_links, method_bytes, head_bytes, spare_bytes, links_bytes, Put};
ghost use Rattle.table_record.specs.Layout.{head_numbers, spare_size, method_size, link_size, types_size, links_size};
ghost use Rattle.spec_model.specs.Table.{max_categories, max_types};
ghost use Rattle.spec_model.specs.Records.{argument_slots};

use table_record::{Counts, Head, LINK_BYTES, Links, Method, TYPE_BYTES, TypeRec};

// Store the broader categories of category k.
pub fn put_links(l: &mut [u8; LINK_BYTES], k: usize, x: Links)
    requires { (k < suc max_categories) × (length l.old ≡ links_size) }
    ensures { l.new ≡ sets l.old (k * link_size) (links_bytes (raw_links x)) }
{
    let at = k * Links::BYTES;
    l[at] = x.count;
    l[at + 1] = x.first;
    l[at + 2] = x.second;
}

fn put_method(b: &mut [u8; TYPE_BYTES], at: usize, m: Method)
    requires { at + method_size ≤ types_size }
    ensures bytes { b.new ≡ sets b.old at (method_bytes (raw_method m)) }
    ensures shape { length m.args ≡ argument_slots }
{
    b[at] = m.state;
    b[at + 1] = m.count;
    b[at + 2] = m.args[0];
    b[at + 3] = m.args[1];
    b[at + 4] = m.args[2];
    b[at + 5] = m.args[3];
    b[at + 6] = m.answer;
}

fn put_head(b: &mut [u8; TYPE_BYTES], at: usize, h: Head)
    requires { at + head_numbers ≤ types_size }
    ensures { b.new ≡ sets b.old at (head_bytes h) }
{
    b[at] = h.rep;
    b[at + 1] = h.cat;
    b[at + 2] = h.own;
    b[at + 3] = h.kind;
    b[at + 4] = h.left;
    b[at + 5] = h.right;
}

// The spare bytes of a record are 0.
fn put_spare(b: &mut [u8; TYPE_BYTES], at: usize)
    requires { at + spare_size ≤ types_size }
    ensures { b.new ≡ sets b.old at spare_bytes }
{
    b[at..at + Head::SPARE].fill(0);
}

// Store t as type i: its whole record, the spare bytes too.
pub fn put_type(b: &mut [u8; TYPE_BYTES], i: usize, t: TypeRec)
    requires { (i < max_types) × (length b.old ≡ types_size) }
    ensures { Put b.old i (raw_of t) b.new }
{
    let at = i * TypeRec::BYTES;
    put_head(b, at, t.head);
    put_spare(b, at + Head::NUMBERS);
    for (j, m) in t.methods.iter().enumerate() {
        put_method(b, at + Head::BYTES + j * Method::BYTES, *m);
    }
}
