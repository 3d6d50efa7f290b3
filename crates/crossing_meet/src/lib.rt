// A reference meets the type of a place (X6 to X10): it passes as it is, or gets an adapter in front of the place. The types are lent and may grow; a new
// adapter is stored among the places. What came of a crossing means is in specs/Crossed.antt.
#![tactic(auto)]

ghost use Rattle.std.specs.Prelude.{◌≡◌};
ghost use Rattle.spec_model.specs.Crossing.{adapt};
ghost use Rattle.spec_model.specs.Relations.{related};
ghost use Rattle.table_record.specs.Store.{table_in};
ghost use Rattle.table_record.specs.Limits.{Checked};
ghost use Rattle.relation_states.specs.Asked.{relation_of};
ghost use Rattle.state_record.specs.View.{places_in};
ghost use Rattle.crossing_meet.specs.Crossed.{Ready, PlaceKnown, crossed_of, Leaves, landed, Room, places_with};

use base_numbers::refusal::Refusal;
use relation_states::Relation;
use state_record::{Place, PlaceRec, Places, State};
use table_record::{Counts, LINK_BYTES, TYPE_BYTES};

// The crossing's result, where it is not refused (F5): the reference leads to a place that stands, or to a new adapter, whose record is to be the next place.
#[derive(Clone, Copy)]
pub enum Landing {
    Stands(usize),
    Adapter(PlaceRec),
}

// The reference as it has become: its static type and its place, the places with a new adapter among them, and how many types there are now.
#[derive(Clone, Copy)]
pub struct Crossed {
    pub ty: usize,
    pub place: usize,
    pub places: Places,
    pub types: usize,
}

// Every relation that a crossing needs is asked for here.
pub fn asked(
    types: &[u8; TYPE_BYTES],
    links: &[u8; LINK_BYTES],
    c: Counts,
    k: Relation,
    t: usize,
    s: usize,
) -> bool
    requires { Checked links.now c }
    ensures { result ≡ related (relation_of k) (table_in types.now links.now c) t s }
{
    relation_search::related_at(types, links, c, k, t, s)
}

// A new adapter becomes the next place, so that the next crossing and the new cell find it.
pub fn land(ps: Places, ty: usize, x: Landing, types: usize) -> Crossed
    requires { Room ps x }
    ensures { (result ≡ landed ps ty x types) × (places_in result.places ≡ places_with (places_in ps) x) }
{
    match x {
        Landing::Stands(place) => Crossed {
            ty,
            place,
            places: ps,
            types,
        },
        Landing::Adapter(record) => Crossed {
            ty,
            place: ps.count,
            places: ps.add(record),
            types,
        },
    }
}

// X6 to X10: R meets V, the type of place p. A place that has all that R asks for, own aside, passes; else an adapter is made in front of it, of type
// Closed(R,V). The reference is of type `to` then.
pub fn meet(
    types: &mut [u8; TYPE_BYTES],
    links: &[u8; LINK_BYTES],
    c: Counts,
    ps: Places,
    to: usize,
    right: usize,
    p: usize,
) -> Result<Crossed, Refusal>
    requires { Ready links.now c types.old × PlaceKnown ps p }
    ensures is { crossed_of types.new links.now c result
        ≡ adapt (table_in types.old links.now c) (places_in ps) to right p }
    ensures leaves { Leaves c ps to types.old types.new result }
{
    let v = state_places::place_type(ps.at(p));
    if asked(types, links, c, Relation::Conforms, right, v) {
        return Ok(land(ps, to, Landing::Stands(p), c.types));
    }
    if !asked(types, links, c, Relation::Strict, right, v) {
        return Err(Refusal::NotStrict);
    }
    let Some((closed, count)) = derive_closed::closed_any(types, c, right, v) else {
        return Err(Refusal::TypesFull);
    };
    if State::PLACES <= ps.count {
        return Err(Refusal::PlacesFull);
    }
    let place = Place::Adapter {
        behind: p as u8,
        closed: closed as u8,
    };
    Ok(land(ps, to, Landing::Adapter(PlaceRec { place }), count))
}
