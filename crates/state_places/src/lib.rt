// A place of a state and what stands behind it: its type, owner and next place, its base (Q2, Q3), and the types of its adapters down to the class (C9, C19).
// The records are those of crate `state_record`. What is behind an adapter lies below it (`Descending` there), so that going behind ends.
#![tactic(auto)]

ghost use Rattle.std.specs.Prelude.{◌≡◌, ◌<◌};
ghost use Rattle.spec_model.specs.Crossing.{place_type, owner_of, base_owner};
ghost use Rattle.spec_model.specs.Requests.{adapter_count};
ghost use Rattle.state_record.specs.View.{place_of, places_in, is_object, behind_of};
ghost use Rattle.state_record.specs.Sound.{Descending};
ghost use Rattle.state_places.specs.Behind.{BaseAt, LayersAt};

use state_record::{Place, PlaceRec, Places, State};

// The types that a value passes at a place (C9): the closed types of the adapters, outermost first, and the class last.
// Kept: an array with its count, by a rule (Q8: fixed memory, no heap).
#[derive(Clone, Copy)]
pub struct Layers {
    pub list: [u8; State::PLACES],
    pub count: usize,
}

// The type of a place (Q3).
pub fn place_type(p: PlaceRec) -> usize
    ensures { (result ≡ place_type (place_of p.place)) × (result < 256) }
{
    usize::from(match p.place {
        Place::Object { class, .. } => class,
        Place::Adapter { closed, .. } => closed,
    })
}

// The owner of an object; 0 for an adapter.
pub fn place_owner(p: PlaceRec) -> usize
    ensures { (result ≡ owner_of (place_of p.place)) × (result < 256) }
{
    match p.place {
        Place::Object { owner, .. } => usize::from(owner),
        Place::Adapter { .. } => 0,
    }
}

// The place behind an adapter; 0 for an object.
pub fn place_behind(p: PlaceRec) -> usize
    ensures { (result ≡ behind_of (place_of p.place)) × (result < 256) }
{
    match p.place {
        Place::Object { .. } => 0,
        Place::Adapter { behind, .. } => usize::from(behind),
    }
}

pub fn is_object(p: PlaceRec) -> bool
    ensures { result ≡ is_object (place_of p.place) }
{
    matches!(p.place, Place::Object { .. })
}

// The base of place p (Q2): what is behind lies below, so it is reached.
pub fn base_of(ps: Places, p: usize) -> usize
    requires { Descending ps × (p < ps.count) }
    ensures { BaseAt ps p result }
{
    let mut base = p;
    while let Place::Adapter { behind, .. } = ps.list[base].place {
        base = usize::from(behind);
    }
    base
}

pub fn base_owner(ps: Places, p: usize) -> usize
    requires { Descending ps × (p < ps.count) }
    ensures { (result ≡ base_owner (places_in ps) p) × (result < 256) }
{
    let base = base_of(ps, p);
    place_owner(ps.at(base))
}

// The layers of place p (C9).
pub fn layers_of(ps: Places, p: usize) -> Layers
    requires { Descending ps × (p < ps.count) }
    ensures { LayersAt ps p result }
{
    let mut list = [0u8; State::PLACES];
    let mut count: usize = 0;
    let mut at = p;
    while let Place::Adapter { behind, closed } = ps.list[at].place {
        list[count] = closed;
        count += 1;
        at = usize::from(behind);
    }
    list[count] = place_type(ps.list[at]) as u8;
    Layers {
        list,
        count: count + 1,
    }
}

// How many adapters stand between place p and its base (C19).
pub fn adapters_of(ps: Places, p: usize) -> usize
    requires { Descending ps × (p < ps.count) }
    ensures { result ≡ adapter_count (places_in ps) p }
{
    let l = layers_of(ps, p);
    l.count - 1
}
