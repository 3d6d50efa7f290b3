// What comes back of a request at the C boundary: the number returned, the values, and the new state in the arrays that were lent; a refusal stores nothing
// (Q14, E12). What each hands out is given by definitions in specs/States.antt; that it is all of a request's contract is proved in proofs/Handing.antt.
#![tactic(auto)]

ghost use Rattle.std.specs.Prelude.{◌≡◌, List, ℕ};
ghost use Rattle.state_record.specs.Whole.{whole};
ghost use Rattle.state_bytes.specs.Flat.{flat};
ghost use Rattle.request_common.specs.Served.{result_of};
ghost use Rattle.request_results.specs.States.{result_values, lent_state};
ghost use Rattle.request_results.specs.Stored.{SmallAnswer, Small, Stored, BackNumbered};

use base_numbers::refusal::Numbered;
use request_common::Answer;
use state_bytes::{CALL_BYTES, CELL_BYTES, PLACE_BYTES};
use state_record::State;

// How many values an answer has, and the values (E12).
fn values_of(answer: Answer) -> [i64; 3]
    requires { SmallAnswer answer }
    ensures { result ≡ result_values (result_of answer) }
{
    match answer {
        Answer::Pair { first, second } => [2, first as i64, second as i64],
        Answer::Number(v) => [1, v, 0],
        Answer::Nothing => [0, 0, 0],
    }
}

// The state in the arrays: its counts and its counted records.
pub fn store(
    s: &State,
    cells: &mut [u8; CELL_BYTES],
    places: &mut [u8; PLACE_BYTES],
    calls: &mut [u8; CALL_BYTES],
    counts: &mut [usize; 8],
)
    ensures { (t l : List ℕ)
        → Stored (whole t s.now) (flat t l cells.old places.old calls.old counts.old)
        (flat t l cells.new places.new calls.new counts.new) }
{
    let cs = s.cells;
    let ps = s.places;
    let js = s.calls;
    *counts = state_bytes::counts_to(s.counts, cs.count, ps.count, js.count);
    state_bytes::cells_to(cells, cs);
    state_bytes::places_to(places, ps);
    state_bytes::calls_to(calls, js);
}

// What comes back of a request: its number, and, refused, nothing is stored (Q14).
// Kept: the C interface (0 or the number of a refusal, the values in an array).
pub fn hand_back<E: Numbered>(
    r: Result<Answer, E>,
    s: &State,
    cells: &mut [u8; CELL_BYTES],
    places: &mut [u8; PLACE_BYTES],
    calls: &mut [u8; CALL_BYTES],
    counts: &mut [usize; 8],
    values: &mut [i64; 3],
) -> usize
    requires { Small r }
    ensures { (t l : List ℕ)
        → BackNumbered E.numbered r (whole t s.now) result
        (lent_state (flat t l cells.old places.old calls.old counts.old) values.old)
        (lent_state (flat t l cells.new places.new calls.new counts.new) values.new) }
{
    match r {
        Ok(answer) => {
            store(s, cells, places, calls, counts);
            *values = values_of(answer);
            0
        }
        Err(e) => e.to_number(),
    }
}
