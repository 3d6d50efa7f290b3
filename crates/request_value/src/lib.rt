// What the arguments of a call and a reference that is answered share: each meets its layers by the state as it stands, and a reference becomes a cell (C8 to
// C11, C17; A8, A10).
#![tactic(auto)]

ghost use Rattle.std.specs.Prelude.{◌≡◌, ℕ, ◌≤◌, ◌<◌, pos, get_or};
ghost use Rattle.spec_model.specs.Basics.{named};
ghost use Rattle.spec_model.specs.Requests.{no_cell, send, send_arguments, max_cells};
ghost use Rattle.table_record.specs.Limits.{Limits};
ghost use Rattle.state_record.specs.Whole.{Whole, whole};
ghost use Rattle.state_record.specs.View.{cell_of, cells_in, system_in};
ghost use Rattle.state_record.specs.Sound.{Sound};
ghost use Rattle.crossing_targets.specs.Targets.{call_layers_in, targets_in, max_layers};
ghost use Rattle.request_common.specs.Served.{Step, done};
ghost use Rattle.request_value.specs.Sent.{arguments_of, send_argument, all_sent, Went, Sent, Passes};

use base_numbers::index_of;
use base_numbers::refusal::Refusal;
use crossing_targets::{CallLayers, Slot, Targets};
use request_common::Answer;
use state_record::{Cell, Cells, State};
use table_record::{Counts, Method, TYPE_BYTES};

// What v names, and 0 where it is negative: as the model reads a number.
fn from_zero(v: i64) -> i64
    ensures { result ≡ pos (named v) }
{
    v.max(0)
}

// The cell that v names. Where it names none it is read as one of zeros, as in the model. No state that passed the check comes to that (H6, C5), but `Sound`
// says nothing of signatures.
fn named_cell(cs: Cells, v: i64) -> Cell
    requires { cs.count ≤ max_cells }
    ensures { cell_of result ≡ get_or (cells_in cs) (named v) no_cell }
{
    let k = index_of(from_zero(v), cs.count);
    if k < cs.count {
        return cs.at(k);
    }
    Cell {
        holder: 0,
        ty: 0,
        place: 0,
    }
}

// The reference in the cell that v names crosses to each target and becomes a cell of r (C11, C17; A8, A10).
pub fn send(
    types: &mut [u8; TYPE_BYTES],
    s: &mut State,
    r: usize,
    v: i64,
    targets: Targets,
) -> Result<Answer, Refusal>
    requires { Sound (whole types.old s.old) × (0 < s.old.places.count) × (0 < s.old.counts.types) × (r < 256) × (targets.count ≤ max_layers) }
    ensures { Step (whole types.old s.old) (send (system_in (whole types.old s.old)) r (named v) (targets_in targets))
        (done types.new s.new result)
        × Went (whole types.old s.old) (whole types.new s.new) }
{
    let c = named_cell(s.cells, v);
    let x = crossing_layers::carry(
        types,
        &s.links,
        s.counts,
        s.places,
        usize::from(c.ty),
        usize::from(c.place),
        targets,
        r,
    )?;
    request_common::add_cell(s, x.types, x.places, r, x.ty, x.place)
}

// Argument i, of type a in the signature of the cell's type, meets the layers by the types as they are now (C8, C10).
fn send_argument(
    types: &mut [u8; TYPE_BYTES],
    s: &mut State,
    r: usize,
    w: CallLayers,
    m: usize,
    i: usize,
    a: usize,
    v: i64,
) -> Result<Answer, Refusal>
    requires { Sound (whole types.old s.old) × (0 < s.old.places.count) × (0 < s.old.counts.types) × (r < 256) × (w.count ≤ max_layers) }
    ensures { Step (whole types.old s.old) (send_argument (system_in (whole types.old s.old)) r (call_layers_in w) m i a v)
        (done types.new s.new result)
        × Went (whole types.old s.old) (whole types.new s.new) }
{
    let c = s.counts;
    let targets = crossing_targets::targets_of(types, c, m, Slot::Argument(i), w);
    if table_record::names_ref(types, c.types, a) {
        return send(types, s, r, v, targets);
    }
    crossing_targets::pass(types, c, v, targets)?;
    Ok(Answer::Nothing)
}

// What the arguments are met as, where none is refused before any is sent: all are numbers, and have passed; or a reference is met, and nothing is said.
#[derive(Clone, Copy, Debug, PartialEq, Eq)]
pub enum Met {
    Numbers,
    Reference,
}

// The numbers in front of the first reference, by the types as they are: they change nothing, so no state is needed (C8, C10, C14).
pub fn pass_numbers(
    types: &[u8; TYPE_BYTES],
    c: Counts,
    w: CallLayers,
    m: usize,
    x: Method,
    vs: &[i64],
) -> Result<Met, Refusal>
    requires { Limits c × (w.count ≤ max_layers) }
    ensures { (s : Whole) (r : ℕ) → s.types ≡ types.now → s.counts ≡ c
        → Passes (system_in s) (send_arguments (system_in s) r (call_layers_in w) m 0 (arguments_of x) vs.now) result }
{
    for i in 0..vs.len() {
        let Some(a) = crossing_targets::argument_in(x, i) else {
            return Ok(Met::Numbers);
        };
        if table_record::names_ref(types, c.types, usize::from(a)) {
            return Ok(Met::Reference);
        }
        let targets = crossing_targets::targets_of(types, c, m, Slot::Argument(i), w);
        crossing_targets::pass(types, c, vs[i], targets)?;
    }
    Ok(Met::Numbers)
}

// The arguments in order, each before the next is begun (C10, C17). After a refusal the state is the one that the refused argument met.
pub fn send_arguments(
    types: &mut [u8; TYPE_BYTES],
    s: &mut State,
    r: usize,
    w: CallLayers,
    m: usize,
    x: Method,
    vs: &[i64],
) -> Result<Answer, Refusal>
    requires { Sound (whole types.old s.old) × (0 < s.old.places.count) × (0 < s.old.counts.types) × (r < 256) × (w.count ≤ max_layers) }
    ensures { Sent (whole types.old s.old)
        (all_sent (send_arguments (system_in (whole types.old s.old)) r (call_layers_in w) m 0 (arguments_of x) vs.now))
        (done types.new s.new result) }
{
    for i in 0..vs.len() {
        let Some(a) = crossing_targets::argument_in(x, i) else {
            return Ok(Answer::Nothing);
        };
        send_argument(types, s, r, w, m, i, usize::from(a), vs[i])?;
    }
    Ok(Answer::Nothing)
}
