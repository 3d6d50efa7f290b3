// C functions on a state in flat bytes (B25 to B29, E12): the four requests, for any bytes and any numbers. A request that is accepted stores the new state in
// the arrays lent to it and its values in the last one; a refusal changes nothing. Their contract is `Handed` (crates/request_results/specs/States.antt). Each
// puts its operands into a list; `serve_bytes` does the rest for all of them, by the code of the request (U3 to U5).
#![tactic(auto)]

ghost use Rattle.std.specs.Prelude.{◌≡◌};
ghost use Rattle.std.proofs.Math.Option.{some};
ghost use Rattle.spec_model.specs.Requests.{Request, new, move, call, answer};
ghost use Rattle.spec_model.specs.Coded.{by_code};
ghost use Rattle.state_bytes.specs.Flat.{flat};
ghost use Rattle.request_results.specs.States.{Handed, lent_state};
ghost use Rattle.request_operands.specs.Given.{given_in};

use base_numbers::refusal::Refusal;
use state_bytes::{CALL_BYTES, CELL_BYTES, PLACE_BYTES};
use table_record::{LINK_BYTES, TYPE_BYTES};

// The request of a code and its operands on the state that the bytes hold: 2 where a code in them names nothing (H3); else it is served, and what comes of it
// goes back.
// Kept: the C interface (0 or the number of a refusal).
fn serve_bytes(
    types: &mut [u8; TYPE_BYTES],
    links: &[u8; LINK_BYTES],
    cells: &mut [u8; CELL_BYTES],
    places: &mut [u8; PLACE_BYTES],
    calls: &mut [u8; CALL_BYTES],
    counts: &mut [usize; 8],
    code: usize,
    ops: &[i64],
    values: &mut [i64; 3],
) -> usize
    ensures { (q : Request) → by_code code ops.now ≡ some q
        → Handed q result
        (lent_state (flat types.old links.now cells.old places.old calls.old counts.old)
        values.old)
        (lent_state (flat types.new links.now cells.new places.new calls.new counts.new)
        values.new) }
{
    if !state_bytes::codes_fit(places, calls, counts[6], counts[7]) {
        return Refusal::OutOfRange.number();
    }
    let mut s = state_bytes::state_from(links, cells, places, calls, *counts);
    let r = request_serve::serve(types, &mut s, code, ops);
    request_results::hand_back(r, &s, cells, places, calls, counts, values)
}

// New (N): subject, class and cell type; the values are the new cell and its place.
#[unsafe(no_mangle)]
pub extern "C" fn pilgonca_new(
    types: &mut [u8; TYPE_BYTES],
    links: &[u8; LINK_BYTES],
    cells: &mut [u8; CELL_BYTES],
    places: &mut [u8; PLACE_BYTES],
    calls: &mut [u8; CALL_BYTES],
    counts: &mut [usize; 8],
    subject: i64,
    class: i64,
    to: i64,
    values: &mut [i64; 3],
) -> usize
    ensures { Handed (new subject class to) result
        (lent_state (flat types.old links.now cells.old places.old calls.old counts.old)
        values.old)
        (lent_state (flat types.new links.now cells.new places.new calls.new counts.new)
        values.new) }
{
    let ops = [subject, class, to];
    serve_bytes(
        types,
        links,
        cells,
        places,
        calls,
        counts,
        request_operands::NEW,
        &ops,
        values,
    )
}

// Move (M): subject, cell, receiver and type; the values are the new cell and its place.
#[unsafe(no_mangle)]
pub extern "C" fn pilgonca_move(
    types: &mut [u8; TYPE_BYTES],
    links: &[u8; LINK_BYTES],
    cells: &mut [u8; CELL_BYTES],
    places: &mut [u8; PLACE_BYTES],
    calls: &mut [u8; CALL_BYTES],
    counts: &mut [usize; 8],
    subject: i64,
    cell: i64,
    receiver: i64,
    to: i64,
    values: &mut [i64; 3],
) -> usize
    ensures { Handed (move subject cell receiver to) result
        (lent_state (flat types.old links.now cells.old places.old calls.old counts.old)
        values.old)
        (lent_state (flat types.new links.now cells.new places.new calls.new counts.new)
        values.new) }
{
    let ops = [subject, cell, receiver, to];
    serve_bytes(
        types,
        links,
        cells,
        places,
        calls,
        counts,
        request_operands::MOVE,
        &ops,
        values,
    )
}

// Call (C): subject, cell, method and any number of arguments; the values are the call and how many adapters it goes through (C19).
#[unsafe(no_mangle)]
pub extern "C" fn pilgonca_call(
    types: &mut [u8; TYPE_BYTES],
    links: &[u8; LINK_BYTES],
    cells: &mut [u8; CELL_BYTES],
    places: &mut [u8; PLACE_BYTES],
    calls: &mut [u8; CALL_BYTES],
    counts: &mut [usize; 8],
    subject: i64,
    cell: i64,
    method: i64,
    arguments: &[i64],
    values: &mut [i64; 3],
) -> usize
    ensures { Handed (call subject cell method arguments.now) result
        (lent_state (flat types.old links.now cells.old places.old calls.old counts.old)
        values.old)
        (lent_state (flat types.new links.now cells.new places.new calls.new counts.new)
        values.new) }
{
    let o = request_operands::call_operands(subject, cell, method, arguments);
    let items = o.items;
    let n = o.count;
    serve_bytes(
        types,
        links,
        cells,
        places,
        calls,
        counts,
        request_operands::CALL,
        &items[..n],
        values,
    )
}

// Answer (A): subject, call, and a value unless `given` is 0; the values are the caller's new cell and its place, or the number, or none.
#[unsafe(no_mangle)]
pub extern "C" fn pilgonca_answer(
    types: &mut [u8; TYPE_BYTES],
    links: &[u8; LINK_BYTES],
    cells: &mut [u8; CELL_BYTES],
    places: &mut [u8; PLACE_BYTES],
    calls: &mut [u8; CALL_BYTES],
    counts: &mut [usize; 8],
    subject: i64,
    call: i64,
    given: usize,
    value: i64,
    values: &mut [i64; 3],
) -> usize
    ensures { Handed (answer subject call (given_in given value)) result
        (lent_state (flat types.old links.now cells.old places.old calls.old counts.old)
        values.old)
        (lent_state (flat types.new links.now cells.new places.new calls.new counts.new)
        values.new) }
{
    let ops = [subject, call, value];
    let n = request_operands::answer_count(given);
    serve_bytes(
        types,
        links,
        cells,
        places,
        calls,
        counts,
        request_operands::ANSWER,
        &ops[..n],
        values,
    )
}
