// Whether a cell of a state offers a chain of methods (L15 to L18, E11): so that demand 3 can be watched on what runs. What comes of it is the definition
// `offers_handed` in specs/Chained.antt.
#![tactic(auto)]

ghost use Rattle.std.specs.Prelude.{◌≡◌, List, ℕ};
ghost use Rattle.table_record.specs.Limits.{Limits};
ghost use Rattle.table_record.specs.Store.{table_in};
ghost use Rattle.state_record.specs.View.{system_in};
ghost use Rattle.state_bytes.specs.Flat.{flat, raw_flat};
ghost use Rattle.state_bytes.specs.Records.{state_from};
ghost use Rattle.state_offers.specs.Chained.{offers_named, offers_handed, offered_as};
ghost use Rattle.state_offers.specs.Steps.{code_of, step_code, permits_named, Within};

use base_numbers::refusal::Refusal;
use state_bytes::{CALL_BYTES, CELL_BYTES, PLACE_BYTES};
use table_record::{Counts, LINK_BYTES, TYPE_BYTES};

// One method of a chain, by type t (L16): nothing where it is not permitted; else its answer type, if it has one.
fn after_method(types: &[u8; TYPE_BYTES], c: Counts, t: usize, z: i64) -> Option<Option<usize>>
    requires { Limits c }
    ensures { (l : List ℕ) → code_of result ≡ step_code (table_in types.now l c) t z }
{
    let m = base_numbers::index_of(z, c.methods);
    if c.methods <= m || !table_record::names_ref(types, c.types, t) {
        return None;
    }
    let x = table_record::get_method(types, t, m);
    if !table_record::permits(x.state) {
        return None;
    }
    Some(usize::from(x.answer).checked_sub(1))
}

// Whether type t permits a chain: each method by the answer type of the one before (L15 to L17).
fn type_permits(types: &[u8; TYPE_BYTES], c: Counts, t: usize, chain: &[i64]) -> bool
    requires { Limits c }
    ensures { (l : List ℕ) → result ≡ permits_named (table_in types.now l c) t chain.now }
{
    let mut at = t;
    for (i, z) in chain.iter().enumerate() {
        let Some(answer) = after_method(types, c, at, *z) else {
            return false;
        };
        if i + 1 == chain.len() {
            return true;
        }
        let Some(next) = answer else {
            return false;
        };
        at = next;
    }
    table_record::names_ref(types, c.types, at)
}

// Of a state that passes the check: the type of the cell and the type of its place both permit the chain (L18).
fn cell_offers(
    types: &[u8; TYPE_BYTES],
    cells: &[u8; CELL_BYTES],
    places: &[u8; PLACE_BYTES],
    counts: &[usize; 8],
    cell: i64,
    chain: &[i64],
) -> bool
    requires { Within cells.now counts.now }
    ensures { (l js : List ℕ)
        → result
        ≡ offers_named (system_in (state_from (flat types.now l cells.now places.now js counts.now))) cell
        chain.now }
{
    let n = counts[5];
    let k = base_numbers::index_of(cell, n);
    if n <= k {
        return false;
    }
    let x = state_bytes::cell_from(cells, k);
    let p = state_bytes::place_from(places, usize::from(x.place));
    let ty = usize::from(x.ty);
    let place_type = state_places::place_type(p);
    let c = state_bytes::counts_from(*counts);
    type_permits(types, c, ty, chain) && type_permits(types, c, place_type, chain)
}

// On any state handed in: out of range before all else (E11).
pub fn offers(
    types: &[u8; TYPE_BYTES],
    links: &[u8; LINK_BYTES],
    cells: &[u8; CELL_BYTES],
    places: &[u8; PLACE_BYTES],
    calls: &[u8; CALL_BYTES],
    counts: &[usize; 8],
    cell: i64,
    chain: &[i64],
) -> Result<bool, Refusal>
    ensures { offered_as result
        ≡ offers_handed
        (raw_flat
        (flat types.now links.now cells.now places.now calls.now counts.now)) cell
        chain.now }
{
    if !state_bytes_check::bytes_fit(types, links, cells, places, calls, counts) {
        return Err(Refusal::OutOfRange);
    }
    Ok(cell_offers(types, cells, places, counts, cell, chain))
}
