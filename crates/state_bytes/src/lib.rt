// A state in arrays of bytes, as it is handed in at the C boundary (B25 to B29): out of the bytes into the records of crate `state_record`, and back. Only this
// crate knows where in the bytes a cell, a place or a call stands. Only counted records are read and written, and none past an array's end: a count above the
// limit is the check's to refuse (H1).
#![tactic(auto)]

ghost use Rattle.std.specs.Prelude.{◌≡◌, ◌&&◌, List, [], ◌∷◌, ℕ, ◌*◌, ◌<◌, length};
ghost use Rattle.std.proofs.lemmas.List.Edits.{sets};
ghost use Rattle.spec_model.specs.Crossing.{max_places};
ghost use Rattle.spec_model.specs.Requests.{max_cells, max_calls};
ghost use Rattle.state_record.specs.Whole.{whole};
ghost use Rattle.state_bytes.specs.Flat.{flat, counts_in, cell_count, place_count, call_count, cell_size, place_size, call_size};
ghost use Rattle.state_bytes.specs.Records.{cell_from, place_from, call_from, cells_from, places_from, calls_from, state_from, place_codes};
ghost use Rattle.state_bytes.specs.Records.{call_codes, place_by, cell_bytes, place_bytes, call_bytes, CellsTo, PlacesTo, CallsTo};

use state_record::{Call, Calls, Cell, Cells, Place, PlaceRec, Places, State};
use table_record::{Counts, LINK_BYTES};

// The bytes of a cell, a place and a call (B26 to B28), and of all of them.
const CELL_SIZE: usize = 3;

const PLACE_SIZE: usize = 3;

const CALL_SIZE: usize = 4;

pub const CELL_BYTES: usize = State::CELLS * CELL_SIZE;

pub const PLACE_BYTES: usize = State::PLACES * PLACE_SIZE;

pub const CALL_BYTES: usize = State::CALLS * CALL_SIZE;

// A cell (B26).
pub fn cell_from(b: &[u8; CELL_BYTES], k: usize) -> Cell
    requires { k < max_cells }
    ensures { result ≡ cell_from b.now k }
{
    let at = k * CELL_SIZE;
    Cell {
        holder: b[at],
        ty: b[at + 1],
        place: b[at + 2],
    }
}

pub fn cells_from(b: &[u8; CELL_BYTES], count: usize) -> Cells
    ensures { result ≡ cells_from b.now count }
{
    let n = count.min(State::CELLS);
    let mut list = Cells::none().list;
    for k in 0..n {
        list[k] = cell_from(b, k);
    }
    Cells { list, count }
}

// A place by its code (B27); a code that names nothing is read as an adapter's, and `codes_fit` refuses it.
// Kept: the code is a byte, by a rule (H2: a state that is handed in may hold any).
fn place_by(code: u8, first: u8, second: u8) -> Place
    ensures { result ≡ place_by code first second }
{
    if code == 0 {
        return Place::Object {
            class: first,
            owner: second,
        };
    }
    Place::Adapter {
        behind: first,
        closed: second,
    }
}

pub fn place_from(b: &[u8; PLACE_BYTES], p: usize) -> PlaceRec
    requires { p < max_places }
    ensures { result ≡ place_from b.now p }
{
    let at = p * PLACE_SIZE;
    let place = place_by(b[at], b[at + 1], b[at + 2]);
    PlaceRec { place }
}

pub fn places_from(b: &[u8; PLACE_BYTES], count: usize) -> Places
    ensures { result ≡ places_from b.now count }
{
    let n = count.min(State::PLACES);
    let mut list = Places::none().list;
    for p in 0..n {
        list[p] = place_from(b, p);
    }
    Places { list, count }
}

// A call (B28).
pub fn call_from(b: &[u8; CALL_BYTES], j: usize) -> Call
    requires { j < max_calls }
    ensures { result ≡ call_from b.now j }
{
    let at = j * CALL_SIZE;
    let answered = b[at + 3] == 1;
    Call {
        caller: b[at],
        cell: b[at + 1],
        method: b[at + 2],
        answered,
    }
}

pub fn calls_from(b: &[u8; CALL_BYTES], count: usize) -> Calls
    ensures { result ≡ calls_from b.now count }
{
    let n = count.min(State::CALLS);
    let mut list = Calls::none().list;
    for j in 0..n {
        list[j] = call_from(b, j);
    }
    Calls { list, count }
}

// Whether every counted place has a code that names something (H2). A count past the array is the check's to refuse.
fn place_codes(b: &[u8; PLACE_BYTES], count: usize) -> bool
    ensures { result ≡ place_codes b.now count }
{
    let n = count.min(State::PLACES);
    for p in 0..n {
        if 1 < b[p * PLACE_SIZE] {
            return false;
        }
    }
    true
}

// Whether every counted call has an answered flag of 0 or 1 (H2).
fn call_codes(b: &[u8; CALL_BYTES], count: usize) -> bool
    ensures { result ≡ call_codes b.now count }
{
    let n = count.min(State::CALLS);
    for j in 0..n {
        if 1 < b[j * CALL_SIZE + 3] {
            return false;
        }
    }
    true
}

pub fn codes_fit(places: &[u8; PLACE_BYTES], calls: &[u8; CALL_BYTES], pn: usize, cn: usize) -> bool
    ensures { result ≡ (place_codes places.now pn && call_codes calls.now cn) }
{
    place_codes(places, pn) && call_codes(calls, cn)
}

// The bytes of a cell, at its place in the array.
fn put_cell(b: &mut [u8; CELL_BYTES], k: usize, c: Cell)
    requires { k < max_cells }
    ensures { b.new ≡ sets b.old (k * cell_size) (cell_bytes c) }
{
    let at = k * CELL_SIZE;
    b[at] = c.holder;
    b[at + 1] = c.ty;
    b[at + 2] = c.place;
}

// The counted cells; every byte behind them stays.
pub fn cells_to(b: &mut [u8; CELL_BYTES], cs: Cells)
    ensures { CellsTo cs b.old b.new }
{
    let n = cs.count.min(State::CELLS);
    for k in 0..n {
        put_cell(b, k, cs.list[k]);
    }
}

fn put_three(b: &mut [u8; PLACE_BYTES], p: usize, code: u8, first: u8, second: u8)
    requires { p < max_places }
    ensures { b.new ≡ sets b.old (p * place_size) (code ∷ first ∷ second ∷ []) }
{
    let at = p * PLACE_SIZE;
    b[at] = code;
    b[at + 1] = first;
    b[at + 2] = second;
}

// The bytes of a place.
fn put_place(b: &mut [u8; PLACE_BYTES], p: usize, x: Place)
    requires { p < max_places }
    ensures { b.new ≡ sets b.old (p * place_size) (place_bytes x) }
{
    match x {
        Place::Object { class, owner } => put_three(b, p, 0, class, owner),
        Place::Adapter { behind, closed } => put_three(b, p, 1, behind, closed),
    }
}

// The counted places; every byte behind them stays.
pub fn places_to(b: &mut [u8; PLACE_BYTES], ps: Places)
    ensures { PlacesTo ps b.old b.new }
{
    let n = ps.count.min(State::PLACES);
    for p in 0..n {
        put_place(b, p, ps.list[p].place);
    }
}

// The bytes of a call.
fn put_call(b: &mut [u8; CALL_BYTES], j: usize, c: Call)
    requires { j < max_calls }
    ensures { b.new ≡ sets b.old (j * call_size) (call_bytes c) }
{
    let at = j * CALL_SIZE;
    b[at] = c.caller;
    b[at + 1] = c.cell;
    b[at + 2] = c.method;
    b[at + 3] = u8::from(c.answered);
}

// The counted calls; every byte behind them stays.
pub fn calls_to(b: &mut [u8; CALL_BYTES], js: Calls)
    ensures { CallsTo js b.old b.new }
{
    let n = js.count.min(State::CALLS);
    for j in 0..n {
        put_call(b, j, js.list[j]);
    }
}

// The counts of the table of a state (B29).
pub fn counts_from(counts: [usize; 8]) -> Counts
    ensures { result ≡ counts_in counts }
{
    Counts {
        subjects: counts[0],
        methods: counts[1],
        cats: counts[2],
        sheet: counts[3],
        types: counts[4],
    }
}

// The state that stands in the bytes, its types aside; what `codes_fit` says of them is asked by itself.
pub fn state_from(
    links: &[u8; LINK_BYTES],
    cells: &[u8; CELL_BYTES],
    places: &[u8; PLACE_BYTES],
    calls: &[u8; CALL_BYTES],
    counts: [usize; 8],
) -> State
    ensures { (t : List ℕ)
        → whole t result ≡ state_from (flat t links.now cells.now places.now calls.now counts) }
{
    State {
        links: *links,
        counts: counts_from(counts),
        cells: cells_from(cells, counts[5]),
        places: places_from(places, counts[6]),
        calls: calls_from(calls, counts[7]),
    }
}

// The counts of a state, in a row (B29).
pub fn counts_to(c: Counts, cells: usize, places: usize, calls: usize) -> [usize; 8]
    ensures { (counts_in result ≡ c) × (cell_count result ≡ cells) × (place_count result ≡ places) × (call_count result ≡ calls) }
{
    [
        c.subjects, c.methods, c.cats, c.sheet, c.types, cells, places, calls,
    ]
}
