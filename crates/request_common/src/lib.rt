// What the four requests have in common: what they answer, the tests of their operands (N1 to N3, M1 to M3, C1, C2, C5, A1, A6), and a reference that becomes a
// cell. A state is lent to a request: where that is refused, it stays as it was.
#![tactic(auto)]

ghost use Rattle.std.specs.Prelude.{◌≡◌, List, ℕ, ◌≤◌, ◌<◌, ℤ, length};
ghost use Rattle.spec_model.specs.Basics.{names, named};
ghost use Rattle.spec_model.specs.Requests.{add_cell, held, is_sheet_ref, max_cells};
ghost use Rattle.table_record.specs.Layout.{types_size};
ghost use Rattle.table_record.specs.Limits.{Limits};
ghost use Rattle.state_record.specs.Whole.{Whole, whole};
ghost use Rattle.state_record.specs.View.{system_in};
ghost use Rattle.request_common.specs.Back.{given_back};
ghost use Rattle.request_common.specs.Served.{Step, done, Arrives, arrived, is_sheet_class};

use base_numbers::index_of;
use base_numbers::refusal::{Numbered, Refusal};
use state_record::{Cell, Cells, Places, State};
use table_record::{Counts, TYPE_BYTES};

// What a request answers: two numbers (Q18, C19); the number answered; or nothing.
#[derive(Clone, Copy, Debug, PartialEq, Eq)]
pub enum Answer {
    Pair { first: usize, second: usize },
    Number(i64),
    Nothing,
}

// A copy of lent bytes. Bytes that are held have their length, of lent ones nothing says it.
pub fn copied(b: [u8; TYPE_BYTES]) -> [u8; TYPE_BYTES]
    ensures { (result ≡ b) × (length b ≡ types_size) }
{
    b
}

// Where a request was refused, the types are given back, every byte (Q14).
pub fn give_back<E: Numbered>(
    types: &mut [u8; TYPE_BYTES],
    old: &[u8; TYPE_BYTES],
    r: Result<Answer, E>,
)
    ensures { types.new ≡ given_back old.now types.old r }
{
    if r.is_err() {
        *types = *old;
    }
}

// The reference that arrived becomes a cell of `holder`; 13 where there is no room for a cell (N7, M5, C17, A10).
pub fn add_cell(
    s: &mut State,
    count: usize,
    places: Places,
    holder: usize,
    ty: usize,
    place: usize,
) -> Result<Answer, Refusal>
    requires { (holder < 256) × (ty < 256) × (place < 256) }
    ensures { (b t : List ℕ) → Arrives (whole b s.old) t count places ty place
        → Step (whole b s.old) (add_cell (system_in (whole b s.old)) holder (arrived (whole b s.old) t count places ty place)) (done t s.new result) }
{
    if State::CELLS <= s.cells.count {
        return Err(Refusal::CellsFull);
    }
    let first = s.cells.count;
    let c = Cell {
        holder: holder as u8,
        ty: ty as u8,
        place: place as u8,
    };
    s.cells = s.cells.add(c);
    s.counts = s.counts.with_types(count);
    s.places = places;
    Ok(Answer::Pair {
        first,
        second: place,
    })
}

// Whether z names a subject (N1, M1, C1, A1).
pub fn is_subject(c: Counts, z: i64) -> bool
    ensures { (s : Whole) → s.counts ≡ c → result ≡ names z (system_in s).table.subjects }
{
    index_of(z, c.subjects) < c.subjects
}

// Whether k is the number of a cell that `who` holds (M2, C2, C5, A6).
pub fn is_held(cs: Cells, who: usize, k: i64) -> bool
    requires { cs.count ≤ max_cells }
    ensures { (s : Whole) (subject : ℤ) → s.cells ≡ cs → named subject ≡ who → result ≡ held (system_in s) subject k }
{
    let i = index_of(k, cs.count);
    i < cs.count && who == usize::from(cs.at(i).holder)
}

// Whether z is the number of a sheet ref type (N3, M3).
pub fn is_sheet_ref(types: &[u8; TYPE_BYTES], c: Counts, z: i64) -> bool
    requires { Limits c }
    ensures { (s : Whole) → s.types ≡ types.now → s.counts ≡ c → result ≡ is_sheet_ref (system_in s).table z }
{
    let i = index_of(z, c.sheet);
    i < c.sheet && table_record::is_ref(types, i)
}

// Whether z is the number of a sheet class (N2).
pub fn is_sheet_class(types: &[u8; TYPE_BYTES], c: Counts, z: i64) -> bool
    requires { Limits c }
    ensures { (s : Whole) → s.types ≡ types.now → s.counts ≡ c → result ≡ is_sheet_class (system_in s).table z }
{
    let i = index_of(z, c.sheet);
    i < c.sheet && state_check_records::is_class(types, c.methods, i)
}
