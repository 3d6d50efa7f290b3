// The C function that holds marks against arrivals (V, E12).
#![tactic(auto)]

ghost use Rattle.spec_doors.specs.Held.{held};
ghost use Rattle.export_doors.specs.Result.{HeldIs};

// Pairs, unpaired marks and unpaired arrivals into `counts`, and 0; or 22, and `counts` stays as it was.
pub fn pilgonca_doors(
    marks: &[u64],
    arrivals: &[u64],
    within: u64,
    counts: &mut [usize; 3],
) -> usize
    ensures { HeldIs (held marks.now arrivals.now within) result counts.old counts.new }
{
    // Kept: the C interface, which tells a refusal by its number.
    match doors_hold::hold(marks, arrivals, within) {
        Ok(c) => {
            *counts = [c.pairs, c.marks, c.arrivals];
            0
        }
        Err(e) => e.number(),
    }
}
