// C functions on a state in flat bytes (B25 to B29, E11, E12) beside the single requests (crate export_requests): the state of a loaded sheet, offers, and a
// run of requests, for any bytes and any numbers.
#![tactic(auto)]

ghost use Rattle.std.specs.Prelude.{◌≡◌, List, ℕ};
ghost use Rattle.spec_sheet.specs.Sheet.{read as read_sheet};
ghost use Rattle.state_record.specs.Whole.{whole};
ghost use Rattle.state_record.specs.View.{state_loaded};
ghost use Rattle.state_bytes.specs.Flat.{flat, raw_flat, cells_size, places_size, calls_size};
ghost use Rattle.state_offers.specs.Chained.{offers_handed, offered_as};
ghost use Rattle.request_results.specs.Stored.{Stored};
ghost use Rattle.request_run.specs.Requested.{run_handed};
ghost use Rattle.request_run.specs.Ran.{room};
ghost use Rattle.export_runs.specs.Results.{found_out, offered_out, no_bytes, LoadedIs, lent_run, RunsOut};

use base_numbers::refusal::Refusal;
use state_bytes::{CALL_BYTES, CELL_BYTES, PLACE_BYTES};
use state_record::State;
use table_record::{Counts, LINK_BYTES, TYPE_BYTES};

fn clear(cells: &mut [u8; CELL_BYTES], places: &mut [u8; PLACE_BYTES], calls: &mut [u8; CALL_BYTES])
    ensures { (cells.new ≡ no_bytes cells_size) × (places.new ≡ no_bytes places_size) × (calls.new ≡ no_bytes calls_size) }
{
    *cells = [0u8; CELL_BYTES];
    *places = [0u8; PLACE_BYTES];
    *calls = [0u8; CALL_BYTES];
}

// The state of a loaded sheet (Q10), stored. It stays a function by itself, so that the state stands on the stack once and not for each way that a reading ends.
#[inline(never)]
fn store_loaded(
    links: &[u8; LINK_BYTES],
    c: Counts,
    cells: &mut [u8; CELL_BYTES],
    places: &mut [u8; PLACE_BYTES],
    calls: &mut [u8; CALL_BYTES],
    counts: &mut [usize; 8],
)
    ensures { (t l : List ℕ)
        → Stored (whole t (state_loaded links.now c)) (flat t l cells.old places.old calls.old counts.old)
        (flat t l cells.new places.new calls.new counts.new) }
{
    let s = State::loaded(*links, c);
    request_results::store(&s, cells, places, calls, counts);
}

// Sheet read (S) of any bytes, and the state of a loaded sheet (Q10): as `pilgonca_read`, with no cells, places or calls and every byte of theirs 0.
pub fn pilgonca_load(
    text: &[u8],
    types: &mut [u8; TYPE_BYTES],
    links: &mut [u8; LINK_BYTES],
    cells: &mut [u8; CELL_BYTES],
    places: &mut [u8; PLACE_BYTES],
    calls: &mut [u8; CALL_BYTES],
    counts: &mut [usize; 8],
    at: &mut usize,
) -> usize
    ensures { LoadedIs (read_sheet text.now) result at.new
        (flat types.new links.new cells.new places.new calls.new counts.new) }
{
    clear(cells, places, calls);
    match sheet_read::read_into(text, types, links) {
        Ok(c) => {
            store_loaded(links, c, cells, places, calls, counts);
            *at = 0;
            0
        }
        Err(e) => {
            store_loaded(links, Counts::empty(), cells, places, calls, counts);
            *at = e.at;
            e.refusal.number()
        }
    }
}

// The number of a result, 0 or its refusal's, and beside it what was found, or, refused, what stood there.
// Kept: the C interface.
fn number_out(r: Result<usize, Refusal>, found: &mut usize) -> usize
    ensures { (result, found.new) ≡ found_out found.old r }
{
    match r {
        Ok(n) => {
            *found = n;
            0
        }
        Err(e) => e.number(),
    }
}

// Offers (E11): 0 and whether the cell offers the chain, or 2 and `offered` as it was.
pub fn pilgonca_offers(
    types: &[u8; TYPE_BYTES],
    links: &[u8; LINK_BYTES],
    cells: &[u8; CELL_BYTES],
    places: &[u8; PLACE_BYTES],
    calls: &[u8; CALL_BYTES],
    counts: &[usize; 8],
    cell: i64,
    chain: &[i64],
    offered: &mut usize,
) -> usize
    ensures { (result, offered.new)
        ≡ offered_out offered.old
        (offers_handed
        (raw_flat
        (flat types.now links.now cells.now places.now calls.now counts.now)) cell
        chain.now) }
{
    match state_offers::offers(types, links, cells, places, calls, counts, cell, chain) {
        Ok(yes) => number_out(Ok(usize::from(yes)), offered),
        Err(e) => number_out(Err(e), offered),
    }
}

// A run on the state that the bytes hold: how many requests were served, or 2, and nothing is changed.
fn run_bytes(
    types: &mut [u8; TYPE_BYTES],
    links: &[u8; LINK_BYTES],
    cells: &mut [u8; CELL_BYTES],
    places: &mut [u8; PLACE_BYTES],
    calls: &mut [u8; CALL_BYTES],
    counts: &mut [usize; 8],
    words: &[i64],
    answers: &mut [i64],
) -> Result<usize, Refusal>
    ensures { (served : ℕ)
        → RunsOut
        (run_handed
        (raw_flat (flat types.old links.now cells.old places.old calls.old counts.old))
        (room answers.old) words.now) (found_out served result).0
        (lent_run (flat types.old links.now cells.old places.old calls.old counts.old)
        answers.old served)
        (lent_run (flat types.new links.now cells.new places.new calls.new counts.new)
        answers.new (found_out served result).1) }
{
    if !state_bytes::codes_fit(places, calls, counts[6], counts[7]) {
        return Err(Refusal::OutOfRange);
    }
    let mut s = state_bytes::state_from(links, cells, places, calls, *counts);
    let served = request_run::run(types, &mut s, words, answers)?;
    request_results::store(&s, cells, places, calls, counts);
    Ok(served)
}

// A run (U): 0, with the outcomes, how many requests were served and the state that they leave; or 2, and nothing is changed.
pub fn pilgonca_run(
    types: &mut [u8; TYPE_BYTES],
    links: &[u8; LINK_BYTES],
    cells: &mut [u8; CELL_BYTES],
    places: &mut [u8; PLACE_BYTES],
    calls: &mut [u8; CALL_BYTES],
    counts: &mut [usize; 8],
    words: &[i64],
    answers: &mut [i64],
    served: &mut usize,
) -> usize
    ensures { RunsOut
        (run_handed
        (raw_flat (flat types.old links.now cells.old places.old calls.old counts.old))
        (room answers.old) words.now) result
        (lent_run (flat types.old links.now cells.old places.old calls.old counts.old)
        answers.old served.old)
        (lent_run (flat types.new links.now cells.new places.new calls.new counts.new)
        answers.new served.new) }
{
    let ran = run_bytes(types, links, cells, places, calls, counts, words, answers);
    number_out(ran, served)
}
