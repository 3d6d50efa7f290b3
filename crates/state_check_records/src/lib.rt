// The check of a state that is handed in, its parts: one cell (H9), one place (H10), one call (H11), and the counts of them (H1), in a table of any bytes
// whose counts are within their limits.
#![tactic(auto)]

ghost use Rattle.std.specs.Prelude.{◌≡◌, ◌≤◌, ◌<◌, get_or};
ghost use Rattle.spec_model.specs.Check.{no_raw_type};
ghost use Rattle.spec_model.specs.Table.{max_methods, max_types};
ghost use Rattle.table_record.specs.Limits.{Limits};
ghost use Rattle.table_record.specs.Store.{types_in};
ghost use Rattle.state_record.specs.View.{cell_of, place_of, call_of};
ghost use Rattle.state_check_records.specs.Parts.{settled_as, class_as, cell_accepted, object_accepted, adapter_accepted, place_accepted, call_accepted, sizes_accepted};

use state_record::{Call, Cell, Place, PlaceRec, State};
use table_record::{Counts, Method, TYPE_BYTES};

// Whether every method of type i is avail or unavail.
fn settled(b: &[u8; TYPE_BYTES], methods: usize, i: usize) -> bool
    requires { (methods ≤ max_methods) × (i < max_types) }
    ensures { result ≡ settled_as methods (get_or (types_in b.now) i no_raw_type) }
{
    for j in 0..methods {
        if table_record::get_method(b, i, j).state < Method::AVAIL {
            return false;
        }
    }
    true
}

// Whether type i is a class (T16), in a table of so many methods.
pub fn is_class(b: &[u8; TYPE_BYTES], methods: usize, i: usize) -> bool
    requires { (methods ≤ max_methods) × (i < max_types) }
    ensures { result ≡ class_as methods (get_or (types_in b.now) i no_raw_type) }
{
    table_record::is_ref(b, i) && table_record::may_stand(b, i) && settled(b, methods, i)
}

// A cell (H9), in a state of so many places.
pub fn cell_fits(b: &[u8; TYPE_BYTES], c: Counts, places: usize, x: Cell) -> bool
    requires { Limits c }
    ensures { result ≡ cell_accepted (types_in b.now) c places (cell_of x) }
{
    let i = usize::from(x.ty);
    usize::from(x.holder) < c.subjects
        && usize::from(x.place) < places
        && i < c.sheet
        && table_record::is_ref(b, i)
}

// An object (H10).
fn object_fits(b: &[u8; TYPE_BYTES], c: Counts, class: usize, owner: usize) -> bool
    requires { Limits c }
    ensures { result ≡ object_accepted (types_in b.now) c class owner }
{
    owner < c.subjects && class < c.sheet && is_class(b, c.methods, class)
}

// An adapter at place p (H10).
fn adapter_fits(b: &[u8; TYPE_BYTES], c: Counts, p: usize, behind: usize, closed: usize) -> bool
    requires { Limits c }
    ensures { result ≡ adapter_accepted (types_in b.now) c p behind closed }
{
    behind < p && closed < c.types && table_record::is_ref(b, closed)
}

pub fn place_fits(b: &[u8; TYPE_BYTES], c: Counts, p: usize, x: PlaceRec) -> bool
    requires { Limits c }
    ensures { result ≡ place_accepted (types_in b.now) c p (place_of x.place) }
{
    match x.place {
        Place::Object { class, owner } => {
            object_fits(b, c, usize::from(class), usize::from(owner))
        }
        Place::Adapter { behind, closed } => {
            adapter_fits(b, c, p, usize::from(behind), usize::from(closed))
        }
    }
}

// A call (H11), in a state of so many cells.
pub fn call_fits(c: Counts, cells: usize, x: Call) -> bool
    ensures { result ≡ call_accepted c cells (call_of x) }
{
    usize::from(x.caller) < c.subjects
        && usize::from(x.cell) < cells
        && usize::from(x.method) < c.methods
}

// The counts of cells, places and calls (H1).
pub fn sizes_fit(cells: usize, places: usize, calls: usize) -> bool
    ensures { result ≡ sizes_accepted cells places calls }
{
    cells <= State::CELLS && places <= State::PLACES && calls <= State::CALLS
}
