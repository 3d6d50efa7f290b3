// A reference on its way over the layers of a call (C11, C13, C15, A8, A9): it crosses to each target in turn, the next one from where the last one left it.
// Arguments and answers are carried by the same functions.
#![tactic(auto)]

ghost use Rattle.std.specs.Prelude.{◌≡◌, true, ◌≤◌, eqb};
ghost use Rattle.spec_model.specs.Requests.{cross_layers};
ghost use Rattle.table_record.specs.Store.{table_in, with_count};
ghost use Rattle.state_record.specs.View.{places_in};
ghost use Rattle.crossing_meet.specs.Crossed.{Ready, PlaceKnown, reference, reference_of, crossed_of, Leaves};
ghost use Rattle.crossing_targets.specs.Targets.{option_of, targets_in, max_layers};
ghost use Rattle.crossing_layers.specs.Carried.{cross_to};

use base_numbers::refusal::Refusal;
use crossing_meet::Crossed;
use crossing_one::Crossing;
use crossing_targets::{Targets, at_layer};
use state_record::Places;
use table_record::{Counts, LINK_BYTES, TYPE_BYTES};

// A reference crosses at layer i to the target (C11, C13, C15).
fn carry_one(
    types: &mut [u8; TYPE_BYTES],
    links: &[u8; LINK_BYTES],
    c: Counts,
    x: Crossed,
    target: Option<usize>,
    r: usize,
    i: usize,
) -> Result<Crossed, Refusal>
    requires { Ready links.now (with_count c x.types) types.old × PlaceKnown x.places x.place }
    ensures is { crossed_of types.new links.now c result
        ≡ cross_to (eqb i 0) (reference_of types.old links.now c x) r (option_of target) }
    ensures leaves { Leaves (with_count c x.types) x.places x.ty types.old types.new result }
{
    let Some(to) = target else {
        return Err(at_layer(i, Refusal::Unrelated));
    };
    let next = Crossing {
        from: x.ty,
        place: x.place,
        to,
        receiver: r,
    };
    let y = crossing_one::cross(types, links, c.with_types(x.types), x.places, next);
    y.map_err(|e| at_layer(i, e))
}

// A reference of static type s that leads to place p crosses to each target in turn, received by r (C11, A8).
pub fn carry(
    types: &mut [u8; TYPE_BYTES],
    links: &[u8; LINK_BYTES],
    c: Counts,
    ps: Places,
    s: usize,
    p: usize,
    targets: Targets,
    r: usize,
) -> Result<Crossed, Refusal>
    requires { Ready links.now c types.old × PlaceKnown ps p × (targets.count ≤ max_layers) }
    ensures is { crossed_of types.new links.now c result
        ≡ cross_layers true (reference (table_in types.old links.now c) (places_in ps) s p) r (targets_in targets) }
    ensures leaves { Leaves c ps s types.old types.new result }
{
    let mut x = Crossed {
        ty: s,
        place: p,
        places: ps,
        types: c.types,
    };
    for i in 0..targets.count {
        x = carry_one(types, links, c, x, targets.list[i], r, i)?;
    }
    Ok(x)
}
