// The functions of crate export_runs as C functions (B25 to B29, E11, E12): a crate of its own, since no crate can use a static library, and crate theorem uses
// that one.
#![tactic(auto)]

ghost use Rattle.std.specs.Prelude.{◌≡◌};
ghost use Rattle.spec_sheet.specs.Sheet.{read as read_sheet};
ghost use Rattle.state_bytes.specs.Flat.{flat, raw_flat};
ghost use Rattle.state_offers.specs.Chained.{offers_handed};
ghost use Rattle.request_run.specs.Requested.{run_handed};
ghost use Rattle.request_run.specs.Ran.{room};
ghost use Rattle.export_runs.specs.Results.{offered_out, LoadedIs, lent_run, RunsOut};

use state_bytes::{CALL_BYTES, CELL_BYTES, PLACE_BYTES};
use table_record::{LINK_BYTES, TYPE_BYTES};

// Sheet read (S) of any bytes, and the state of a loaded sheet (Q10): as `pilgonca_read`, with no cells, places or calls and every byte of theirs 0.
#[unsafe(no_mangle)]
pub extern "C" fn pilgonca_load(
    text: &[u8],
    types: &mut [u8; TYPE_BYTES],
    links: &mut [u8; LINK_BYTES],
    cells: &mut [u8; CELL_BYTES],
    places: &mut [u8; PLACE_BYTES],
    calls: &mut [u8; CALL_BYTES],
    counts: &mut [usize; 8],
    at: &mut usize,
) -> usize
    ensures { LoadedIs (read_sheet text.now) result at.new
        (flat types.new links.new cells.new places.new calls.new counts.new) }
{
    export_runs::pilgonca_load(text, types, links, cells, places, calls, counts, at)
}

// Offers (E11): 0 and whether the cell offers the chain, or 2 and `offered` as it was.
#[unsafe(no_mangle)]
pub extern "C" fn pilgonca_offers(
    types: &[u8; TYPE_BYTES],
    links: &[u8; LINK_BYTES],
    cells: &[u8; CELL_BYTES],
    places: &[u8; PLACE_BYTES],
    calls: &[u8; CALL_BYTES],
    counts: &[usize; 8],
    cell: i64,
    chain: &[i64],
    offered: &mut usize,
) -> usize
    ensures { (result, offered.new)
        ≡ offered_out offered.old
        (offers_handed
        (raw_flat
        (flat types.now links.now cells.now places.now calls.now counts.now)) cell
        chain.now) }
{
    export_runs::pilgonca_offers(
        types, links, cells, places, calls, counts, cell, chain, offered,
    )
}

// A run (U): 0, with the outcomes, how many requests were served and the state that they leave; or 2, and nothing is changed.
#[unsafe(no_mangle)]
pub extern "C" fn pilgonca_run(
    types: &mut [u8; TYPE_BYTES],
    links: &[u8; LINK_BYTES],
    cells: &mut [u8; CELL_BYTES],
    places: &mut [u8; PLACE_BYTES],
    calls: &mut [u8; CALL_BYTES],
    counts: &mut [usize; 8],
    words: &[i64],
    answers: &mut [i64],
    served: &mut usize,
) -> usize
    ensures { RunsOut
        (run_handed
        (raw_flat (flat types.old links.now cells.old places.old calls.old counts.old))
        (room answers.old) words.now) result
        (lent_run (flat types.old links.now cells.old places.old calls.old counts.old)
        answers.old served.old)
        (lent_run (flat types.new links.now cells.new places.new calls.new counts.new)
        answers.new served.new) }
{
    export_runs::pilgonca_run(
        types, links, cells, places, calls, counts, words, answers, served,
    )
}
