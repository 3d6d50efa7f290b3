// The check of a state that is handed in (H1 to H11, H17), in its bytes: what crate `state_check` says of the records that stand there, for a caller who makes
// none of them (offers). One record at a time is read and tested.
#![tactic(auto)]

ghost use Rattle.std.specs.Prelude.{◌≡◌};
ghost use Rattle.spec_model.specs.Check.{system_accepted};
ghost use Rattle.state_bytes.specs.Flat.{flat, raw_flat, cell_count, place_count, call_count};
ghost use Rattle.state_bytes.specs.Records.{cells_from, places_from, calls_from};

use state_bytes::{CALL_BYTES, CELL_BYTES, PLACE_BYTES};
use state_check::Held;
use state_record::{Call, Cell, PlaceRec};
use table_record::{LINK_BYTES, TYPE_BYTES};

// The records of a state in bytes, and the counts that say how many of them count.
#[derive(Clone, Copy)]
struct Bytes<'a> {
    cells: &'a [u8; CELL_BYTES],
    places: &'a [u8; PLACE_BYTES],
    calls: &'a [u8; CALL_BYTES],
    counts: &'a [usize; 8],
}

impl Held for Bytes<'_> {
    ghost cells = { λ s. cells_from s.cells.now (cell_count s.counts.now) };

    ghost places = { λ s. places_from s.places.now (place_count s.counts.now) };

    ghost calls = { λ s. calls_from s.calls.now (call_count s.counts.now) };

    fn cell_count(&self) -> usize {
        self.counts[5]
    }

    fn place_count(&self) -> usize {
        self.counts[6]
    }

    fn call_count(&self) -> usize {
        self.counts[7]
    }

    fn cell(&self, k: usize) -> Cell {
        state_bytes::cell_from(self.cells, k)
    }

    fn place(&self, p: usize) -> PlaceRec {
        state_bytes::place_from(self.places, p)
    }

    fn call(&self, j: usize) -> Call {
        state_bytes::call_from(self.calls, j)
    }
}

// Whether a state that is handed in is taken.
pub fn bytes_fit(
    types: &[u8; TYPE_BYTES],
    links: &[u8; LINK_BYTES],
    cells: &[u8; CELL_BYTES],
    places: &[u8; PLACE_BYTES],
    calls: &[u8; CALL_BYTES],
    counts: &[usize; 8],
) -> bool
    ensures { result
        ≡ system_accepted
        (raw_flat
        (flat types.now links.now cells.now places.now calls.now counts.now)) }
{
    let c = state_bytes::counts_from(*counts);
    let held = Bytes {
        cells,
        places,
        calls,
        counts,
    };
    state_bytes::codes_fit(places, calls, counts[6], counts[7])
        && state_check::held_fits(types, links, c, &held)
}
