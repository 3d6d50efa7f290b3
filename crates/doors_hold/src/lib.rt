// Marks held against arrivals (V): one pass over each list for what may be handed in, and one over both for the pairs (V8).
#![tactic(auto)]

ghost use Rattle.std.specs.Prelude.{◌≡◌, true, ◌≤◌};
ghost use Rattle.spec_doors.specs.Times.{max_tolerance, rising, times_fit, all_fit};
ghost use Rattle.spec_doors.specs.Held.{pairs_of, held};
ghost use Rattle.doors_hold.specs.Result.{held_of};

use base_numbers::refusal::Refusal;

// How many times a list may have (V1).
pub const TIMES: usize = 1024;

// The last time that there is, in milliseconds.
const LAST_TIME: u64 = 4294967295;

// The largest tolerance, in milliseconds.
const TOLERANCE: u64 = 60000;

// The counts of V6: pairs, unpaired marks and unpaired arrivals.
#[derive(Clone, Copy)]
pub struct Counts {
    pub pairs: usize,
    pub marks: usize,
    pub arrivals: usize,
}

// Whether a list of times may be handed in (V1, V2).
fn times_fit(xs: &[u64]) -> bool
    ensures { result ≡ times_fit xs.now }
{
    if TIMES < xs.len() {
        return false;
    }
    let mut low = 0;
    for &x in xs {
        if x < low || LAST_TIME < x {
            return false;
        }
        low = x;
    }
    true
}

// Whether both lists and the tolerance may be (V1, V2).
fn all_fit(marks: &[u64], arrivals: &[u64], within: u64) -> bool
    ensures { result ≡ all_fit marks.now arrivals.now within }
{
    within <= TOLERANCE && times_fit(marks) && times_fit(arrivals)
}

// The pass (V8). Times and tolerance are small enough to be added.
fn count_pairs(marks: &[u64], arrivals: &[u64], within: u64) -> usize
    requires { (rising 0 marks.now ≡ true) × (rising 0 arrivals.now ≡ true) × (within ≤ max_tolerance) }
    ensures { result ≡ pairs_of within marks.now arrivals.now }
{
    let mut i = 0;
    let mut j = 0;
    let mut n = 0;
    // Kept: no count; each turn takes a step in one list, in the other or in both. Each step goes on by itself, and the arrivals are asked for inside: as arms of
    // one `if` under one condition they are one loop, which takes up to twice the time where arrivals are dense (docs/LOOK-BACK.md).
    while i < marks.len() {
        if arrivals.len() <= j {
            break;
        }
        let m = marks[i];
        let a = arrivals[j];
        if m + within < a {
            i += 1;
            continue;
        }
        if a + within < m {
            j += 1;
            continue;
        }
        n += 1;
        i += 1;
        j += 1;
    }
    n
}

// Pairs, unpaired marks and unpaired arrivals; 22 for what may not be handed in (V3).
pub fn hold(marks: &[u64], arrivals: &[u64], within: u64) -> Result<Counts, Refusal>
    ensures { held_of result ≡ held marks.now arrivals.now within }
{
    if !all_fit(marks, arrivals, within) {
        return Err(Refusal::UnfitTimes);
    }
    let pairs = count_pairs(marks, arrivals, within);
    Ok(Counts {
        pairs,
        marks: marks.len() - pairs,
        arrivals: arrivals.len() - pairs,
    })
}
