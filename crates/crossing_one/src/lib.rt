// A reference crosses from one static type to another (X): it may pass as it is, be led to the base of its place, or get an adapter in front of its place.
// The types are lent and may grow; a new adapter is stored among the places. What came of a crossing means is in specs/Crossed.antt of crossing_meet.
#![tactic(auto)]

ghost use Rattle.std.specs.Prelude.{◌≡◌, true, false, ◌≤◌};
ghost use Rattle.spec_model.specs.Table.{max_types};
ghost use Rattle.table_record.specs.Store.{table_in};
ghost use Rattle.crossing_meet.specs.Crossed.{Ready, PlaceKnown, crossed_of, Leaves};
ghost use Rattle.crossing_one.specs.Crosses.{own_in, crossing};

use base_numbers::refusal::Refusal;
use crossing_meet::{Crossed, Landing};
use relation_states::Relation;
use state_record::Places;
use table_record::{Counts, LINK_BYTES, TYPE_BYTES};

// What crosses: a reference of static type `from` to place `place`, which `receiver` is to have by type `to`.
#[derive(Clone, Copy)]
pub struct Crossing {
    pub from: usize,
    pub place: usize,
    pub to: usize,
    pub receiver: usize,
}

// Whether type t of the first n is own. A number that names no type is not.
fn is_own(types: &[u8; TYPE_BYTES], n: usize, t: usize) -> bool
    requires { n ≤ max_types }
    ensures { result ≡ own_in n types.now t }
{
    t < n && !table_record::may_stand(types, t)
}

// X1 to X3, the target own: the receiver must own the base, which the reference leads to from here on.
fn unwrap(
    types: &mut [u8; TYPE_BYTES],
    links: &[u8; LINK_BYTES],
    c: Counts,
    ps: Places,
    x: Crossing,
) -> Result<Crossed, Refusal>
    requires { Ready links.now c types.old × PlaceKnown ps x.place × (own_in c.types types.old x.to ≡ true) }
    ensures is { crossed_of types.new links.now c result ≡ crossing (table_in types.old links.now c) ps x }
    ensures leaves { Leaves c ps x.from types.old types.new result }
{
    if !crossing_meet::asked(types, links, c, Relation::Free, x.to, x.from) {
        return Err(Refusal::Unrelated);
    }
    let owner = state_places::base_owner(ps, x.place);
    if owner != x.receiver {
        return Err(Refusal::NotOwner);
    }
    let base = state_places::base_of(ps, x.place);
    crossing_meet::meet(types, links, c, ps, x.to, x.to, base)
}

// X1, X4 and X5, the target not own: a subtype passes, else R is Sub(T,S). X4 is asked before X1, since a subtype is loosely related: where it passes, one
// search answers both.
fn restrict_to(
    types: &mut [u8; TYPE_BYTES],
    links: &[u8; LINK_BYTES],
    c: Counts,
    ps: Places,
    x: Crossing,
) -> Result<Crossed, Refusal>
    requires { Ready links.now c types.old × PlaceKnown ps x.place × (own_in c.types types.old x.to ≡ false) }
    ensures is { crossed_of types.new links.now c result ≡ crossing (table_in types.old links.now c) ps x }
    ensures leaves { Leaves c ps x.from types.old types.new result }
{
    if crossing_meet::asked(types, links, c, Relation::Subtype, x.to, x.from) {
        return Ok(crossing_meet::land(ps, x.to, Landing::Stands(x.place), c.types));
    }
    if !crossing_meet::asked(types, links, c, Relation::Loose, x.to, x.from) {
        return Err(Refusal::Unrelated);
    }
    let Some((right, count)) = derive_sub_sup::sub_type(types, c, x.to, x.from) else {
        return Err(Refusal::TypesFull);
    };
    crossing_meet::meet(types, links, c.with_types(count), ps, x.to, right, x.place)
}

// The crossing of a reference to a place of `ps`.
pub fn cross(
    types: &mut [u8; TYPE_BYTES],
    links: &[u8; LINK_BYTES],
    c: Counts,
    ps: Places,
    x: Crossing,
) -> Result<Crossed, Refusal>
    requires { Ready links.now c types.old × PlaceKnown ps x.place }
    ensures is { crossed_of types.new links.now c result ≡ crossing (table_in types.old links.now c) ps x }
    ensures leaves { Leaves c ps x.from types.old types.new result }
{
    if is_own(types, c.types, x.to) {
        return unwrap(types, links, c, ps, x);
    }
    restrict_to(types, links, c, ps, x)
}
