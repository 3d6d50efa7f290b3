// The function of crate export_doors as a C function (V, E12): a crate of its own, since no crate can use a static library, and crate theorem uses that one.
#![tactic(auto)]

ghost use Rattle.spec_doors.specs.Held.{held};
ghost use Rattle.export_doors.specs.Result.{HeldIs};

// Pairs, unpaired marks and unpaired arrivals into `counts`, and 0; or 22, and `counts` stays as it was.
#[unsafe(no_mangle)]
pub extern "C" fn pilgonca_doors(
    marks: &[u64],
    arrivals: &[u64],
    within: u64,
    counts: &mut [usize; 3],
) -> usize
    ensures { HeldIs (held marks.now arrivals.now within) result counts.old counts.new }
{
    export_doors::pilgonca_doors(marks, arrivals, within, counts)
}
