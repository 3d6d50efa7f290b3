// The check of a state that is handed in (H1 to H11, H17): any counts and any records. Counts first, so that every index is below its array's length, then the
// table, then cells, places and calls, wherever they are held.
#![tactic(auto)]

ghost use Rattle.std.specs.Prelude.{◌≡◌, ◌&&◌, ℕ, ◌≤◌, ◌<◌, get_or};
ghost use Rattle.spec_model.specs.Check.{callers_fit, system_accepted, table_accepted};
ghost use Rattle.spec_model.specs.Crossing.{max_places};
ghost use Rattle.spec_model.specs.Requests.{max_cells, max_calls};
ghost use Rattle.spec_model.specs.Table.{max_subjects};
ghost use Rattle.table_record.specs.Limits.{Limits};
ghost use Rattle.table_record.specs.Store.{types_in, raw_table};
ghost use Rattle.state_record.specs.Counted.{Cells, Places, Calls};
ghost use Rattle.state_record.specs.Whole.{whole};
ghost use Rattle.state_record.specs.View.{calls_in, raw_state, blank_cell, blank_place, blank_call};
ghost use Rattle.state_check_records.specs.Parts.{sizes_accepted};
ghost use Rattle.state_check.specs.Parts.{cells_accepted, places_accepted, calls_accepted, CallersBelow, records_accepted};

use state_record::{Call, Cell, PlaceRec, State};
use table_record::{Counts, LINK_BYTES, TYPE_BYTES};

// Where the records of a state are held: in a `State`, or in its bytes (crate state_bytes_check), from which one at a time is read.
pub trait Held {
    ghost cells: { Self → Cells };

    ghost places: { Self → Places };

    ghost calls: { Self → Calls };

    fn cell_count(&self) -> usize
        ensures { result ≡ (cells self.now).count };

    fn place_count(&self) -> usize
        ensures { result ≡ (places self.now).count };

    fn call_count(&self) -> usize
        ensures { result ≡ (calls self.now).count };

    fn cell(&self, k: usize) -> Cell
        requires { (k < (cells self.now).count) × ((cells self.now).count ≤ max_cells) }
        ensures { result ≡ get_or (cells self.now).list k blank_cell };

    fn place(&self, p: usize) -> PlaceRec
        requires { (p < (places self.now).count) × ((places self.now).count ≤ max_places) }
        ensures { result ≡ get_or (places self.now).list p blank_place };

    fn call(&self, j: usize) -> Call
        requires { (j < (calls self.now).count) × ((calls self.now).count ≤ max_calls) }
        ensures { result ≡ get_or (calls self.now).list j blank_call };
}

impl Held for State {
    ghost cells = { λ s. s.cells };

    ghost places = { λ s. s.places };

    ghost calls = { λ s. s.calls };

    fn cell_count(&self) -> usize {
        self.cells.count
    }

    fn place_count(&self) -> usize {
        self.places.count
    }

    fn call_count(&self) -> usize {
        self.calls.count
    }

    fn cell(&self, k: usize) -> Cell {
        self.cells.at(k)
    }

    fn place(&self, p: usize) -> PlaceRec {
        self.places.at(p)
    }

    fn call(&self, j: usize) -> Call {
        self.calls.at(j)
    }
}

fn cells_fit<H: Held>(b: &[u8; TYPE_BYTES], c: Counts, h: &H) -> bool
    requires { Limits c × ((H.cells h.now).count ≤ max_cells) }
    ensures { result ≡ cells_accepted (types_in b.now) c (H.places h.now).count (H.cells h.now) }
{
    let places = h.place_count();
    for k in 0..h.cell_count() {
        if !state_check_records::cell_fits(b, c, places, h.cell(k)) {
            return false;
        }
    }
    true
}

fn places_fit<H: Held>(b: &[u8; TYPE_BYTES], c: Counts, h: &H) -> bool
    requires { Limits c × ((H.places h.now).count ≤ max_places) }
    ensures { result ≡ places_accepted (types_in b.now) c (H.places h.now) }
{
    for p in 0..h.place_count() {
        if !state_check_records::place_fits(b, c, p, h.place(p)) {
            return false;
        }
    }
    true
}

fn calls_fit<H: Held>(c: Counts, h: &H) -> bool
    requires { (H.calls h.now).count ≤ max_calls }
    ensures { result ≡ calls_accepted c (H.cells h.now).count (H.calls h.now) }
{
    let cells = h.cell_count();
    for j in 0..h.call_count() {
        if !state_check_records::call_fits(c, cells, h.call(j)) {
            return false;
        }
    }
    true
}

// Nobody made more than 32 of the calls (H17), whose callers are known: they are counted by subject.
fn callers_fit<H: Held>(h: &H) -> bool
    requires { ((H.calls h.now).count ≤ max_calls) × CallersBelow max_subjects (calls_in (H.calls h.now)) }
    ensures { (subjects : ℕ) → subjects ≤ max_subjects → CallersBelow subjects (calls_in (H.calls h.now))
        → result ≡ callers_fit subjects (calls_in (H.calls h.now)) }
{
    let mut made = [0usize; Counts::SUBJECTS];
    for j in 0..h.call_count() {
        let k = usize::from(h.call(j).caller);
        if State::CALLS_EACH <= made[k] {
            return false;
        }
        made[k] += 1;
    }
    true
}

// The calls: each of them, and then how many of them are of one caller.
fn calls_hold<H: Held>(c: Counts, h: &H) -> bool
    requires { Limits c × ((H.calls h.now).count ≤ max_calls) }
    ensures { result ≡ (calls_accepted c (H.cells h.now).count (H.calls h.now) && callers_fit c.subjects (calls_in (H.calls h.now))) }
{
    calls_fit(c, h) && callers_fit(h)
}

// Cells, places and calls, in a table that is accepted.
fn records_fit<H: Held>(b: &[u8; TYPE_BYTES], c: Counts, h: &H) -> bool
    requires { Limits c × ((H.cells h.now).count ≤ max_cells) × ((H.places h.now).count ≤ max_places) × ((H.calls h.now).count ≤ max_calls) }
    ensures { result ≡ records_accepted (types_in b.now) c (H.cells h.now) (H.places h.now) (H.calls h.now) }
{
    cells_fit(b, c, h) && places_fit(b, c, h) && calls_hold(c, h)
}

// The table and the records that are held beside it.
pub fn held_fits<H: Held>(
    types: &[u8; TYPE_BYTES],
    links: &[u8; LINK_BYTES],
    c: Counts,
    h: &H,
) -> bool
    ensures { result
        ≡ (sizes_accepted (H.cells h.now).count (H.places h.now).count (H.calls h.now).count
        && (table_accepted (raw_table types.now links.now c) && records_accepted (types_in types.now) c (H.cells h.now) (H.places h.now) (H.calls h.now))) }
{
    if !state_check_records::sizes_fit(h.cell_count(), h.place_count(), h.call_count()) {
        return false;
    }
    table_check::table_fits(types, links, c) && records_fit(types, c, h)
}

// Whether a state that is handed in is taken.
pub fn state_fits(types: &[u8; TYPE_BYTES], s: State) -> bool
    ensures { result ≡ system_accepted (raw_state (whole types.now s)) }
{
    held_fits(types, &s.links, s.counts, &s)
}
