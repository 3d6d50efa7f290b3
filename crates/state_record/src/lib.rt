// What the four requests work on: cells, places and calls, beside the table (Q1 to Q10). A record has a byte for each number; a count may be any number where a
// state is handed in. Contracts speak of the model's lists (specs/View.antt); functions take the part that they need, so that the table is not copied.
// What a place says and what stands behind it is asked in crate `state_places`.
#![tactic(auto)]

ghost use Rattle.std.specs.Prelude.{◌≡◌, true, [], ◌∷◌, ◌++◌, ◌≤◌, ◌<◌, length, get_or, set};
ghost use Rattle.spec_model.specs.Crossing.{Place as Placeᵐ};
ghost use Rattle.spec_model.specs.Requests.{Cell as Cellᵐ, Call as Callᵐ, no_call, flagged, max_calls};
ghost use Rattle.state_record.specs.View.{cell_of, place_of, call_of, seen, calls_in, blank_cell, blank_place, blank_call};
ghost use Rattle.state_record.specs.View.{none_of, added, state_loaded, state_calls, call_answered};

use table_record::{Counts, LINK_BYTES};

// What a list may hold: a record, what it means in the model, and the record that fills a list past its count.
pub trait Record: Copy {
    ghost Meaning: { Type 0 };

    ghost meaning: { Self → Meaning };

    ghost blank: { Self };

    fn blank() -> Self
        ensures { result ≡ blank };
}

// A cell: a reference as a subject holds it. Its holder, the sheet type by which it is held, and the place it leads to.
#[derive(Clone, Copy)]
pub struct Cell {
    pub holder: u8,
    pub ty: u8,
    pub place: u8,
}

impl Record for Cell {
    ghost Meaning = { Cellᵐ };

    ghost meaning = { cell_of };

    ghost blank = { blank_cell };

    fn blank() -> Self {
        Self {
            holder: 0,
            ty: 0,
            place: 0,
        }
    }
}

// A place: an object, of a class and with an owner; or an adapter of a closed type in front of another place.
#[derive(Clone, Copy)]
pub enum Place {
    Object { class: u8, owner: u8 },
    Adapter { behind: u8, closed: u8 },
}

#[derive(Clone, Copy)]
pub struct PlaceRec {
    pub place: Place,
}

impl Record for PlaceRec {
    ghost Meaning = { Placeᵐ };

    ghost meaning = { λ p. place_of p.place };

    ghost blank = { blank_place };

    fn blank() -> Self {
        Self {
            place: Place::Object { class: 0, owner: 0 },
        }
    }
}

// A call (Q5): by whom, through which cell, of which method; and its answered flag.
#[derive(Clone, Copy)]
pub struct Call {
    pub caller: u8,
    pub cell: u8,
    pub method: u8,
    pub answered: bool,
}

impl Record for Call {
    ghost Meaning = { Callᵐ };

    ghost meaning = { call_of };

    ghost blank = { blank_call };

    fn blank() -> Self {
        Self {
            caller: 0,
            cell: 0,
            method: 0,
            answered: false,
        }
    }
}

// Records in fixed memory, and how many of them count.
// Kept: an array with its count, by a rule (Q7 to Q9: fixed memory) and by the C interface, which hands in and gives back whole arrays.
#[derive(Clone, Copy)]
pub struct Records<T: Record, const N: usize> {
    pub list: [T; N],
    pub count: usize,
}

pub type Cells = Records<Cell, { State::CELLS }>;

pub type Places = Records<PlaceRec, { State::PLACES }>;

pub type Calls = Records<Call, { State::CALLS }>;

#[derive(Clone, Copy)]
pub struct State {
    pub links: [u8; LINK_BYTES],
    pub counts: Counts,
    pub cells: Cells,
    pub places: Places,
    pub calls: Calls,
}

// F6, the records lent as a slice: lookup reads a record, append stores one. They decide nothing: whether a number is in use, who holds the cell and whether
// there is room is asked above them.
fn lookup<T: Record>(records: &[T], k: usize) -> T
    requires { k < length records.now }
    ensures { result ≡ get_or records.now k T.blank }
{
    records[k]
}

fn append<T: Record>(records: &mut [T], count: usize, x: T)
    requires { count < length records.old }
    ensures { records.new ≡ set records.old count x }
{
    records[count] = x;
}

impl<T: Record, const N: usize> Records<T, N> {
    pub fn none() -> Self
        ensures { result ≡ none_of T.blank N }
    {
        Self {
            list: [T::blank(); N],
            count: 0,
        }
    }

    // one record more (Q6)
    pub fn add(self, x: T) -> Self
        requires { self.count < N }
        ensures { (result ≡ added self x) × (seen T.meaning T.blank result ≡ seen T.meaning T.blank self ++ (T.meaning x ∷ [])) }
    {
        let mut list = self.list;
        append(&mut list, self.count, x);
        Self {
            list,
            count: self.count + 1,
        }
    }

    // the record of number k
    pub fn at(&self, k: usize) -> T
        requires { k < N }
        ensures { (result ≡ get_or self.now.list k T.blank) × (k < self.now.count → T.meaning result ≡ get_or (seen T.meaning T.blank self.now) k (T.meaning T.blank)) }
    {
        lookup(&self.list, k)
    }
}

impl Calls {
    // call j is answered: the flag of its record, and nothing else (Q15)
    pub fn answered(self, j: usize) -> Self
        requires { (j < self.count) × (self.count ≤ max_calls) }
        ensures { (result ≡ call_answered self j) × (calls_in result ≡ set (calls_in self) j (flagged (get_or (calls_in self) j no_call) true)) }
    {
        let mut js = self;
        js.list[j].answered = true;
        js
    }
}

impl State {
    pub const CELLS: usize = 256;

    pub const PLACES: usize = 128;

    // of one subject, and of all
    pub const CALLS_EACH: usize = 32;

    pub const CALLS: usize = 512;

    // the state of a loaded sheet
    pub fn loaded(links: [u8; LINK_BYTES], counts: Counts) -> Self
        ensures { result ≡ state_loaded links counts }
    {
        Self {
            links,
            counts,
            cells: Records::none(),
            places: Records::none(),
            calls: Records::none(),
        }
    }

    // the same with other calls
    pub fn with_calls(self, calls: Calls) -> Self
        ensures { result ≡ state_calls self calls }
    {
        Self { calls, ..self }
    }
}
