// The record of the type of each tiny sheet, made of the sheet's number (P22 to P24), and the counts of its table.
#![tactic(auto)]

ghost use Rattle.std.specs.Prelude.{◌≡◌, ◌<◌};
ghost use Rattle.spec_model.specs.Table.{type_at};
ghost use Rattle.spec_model.specs.Records.{type_record};
ghost use Rattle.table_record.specs.Store.{raw_method, raw_of};
ghost use Rattle.spec_tiny.specs.Tiny.{tiny_count};
ghost use Rattle.spec_tiny.specs.Numbered.{tiny_at};
ghost use Rattle.tiny_record.specs.Plan.{bare_raw, signed_raw, choice_raw, plan_of, plan_raw, tiny_counts};

use table_record::{Counts, Method, TypeRec};

// What may be said of a method: four signatures for each of two states beside denied and unavail, with own=yes one (P23).
const CHOICES: usize = 10;

const OWN_CHOICES: usize = 4;

// Where those with one method and own=yes begin, those with two methods, those of them with own=yes, and how many there are in all (P24, P25).
const ONE_OWN: usize = CHOICES;

const TWO: usize = ONE_OWN + OWN_CHOICES;

const TWO_OWN: usize = TWO + CHOICES * CHOICES;

pub const SHEETS: usize = TWO_OWN + OWN_CHOICES * OWN_CHOICES;

// A sheet by its choices: own, and what is said of the first method and of the second.
#[derive(Clone, Copy)]
struct Plan {
    own: bool,
    first: usize,
    second: usize,
}

fn bare(state: u8) -> Method
    ensures { raw_method result ≡ bare_raw state }
{
    Method {
        state,
        count: 0,
        args: [0; Method::SLOTS],
        answer: 0,
    }
}

// Signature j: `()-`, `()0`, `(0)-`, `(0)0`.
fn signed(state: u8, j: usize) -> Method
    requires { j < 4 }
    ensures { raw_method result ≡ signed_raw state j }
{
    Method {
        state,
        count: (j / 2) as u8,
        args: [0; Method::SLOTS],
        answer: (j % 2) as u8,
    }
}

// Choice k (P23).
fn choice(own: bool, k: usize) -> Method
    requires { k < 10 }
    ensures { raw_method result ≡ choice_raw own k }
{
    match k {
        0 => bare(Method::DENIED),
        1 => bare(Method::UNAVAIL),
        2 if own => bare(Method::AVAIL),
        _ if own => bare(Method::OPTIONAL),
        2..=5 => signed(Method::AVAIL, k - 2),
        _ => signed(Method::OPTIONAL, k - 6),
    }
}

// The choices of sheet i, the first method as the slowest (P24).
#[tactic(auto, unfolding(crate::specs::Plan::plan_of))]
fn planned(i: usize) -> Plan
    requires { i < tiny_count }
    ensures { result ≡ plan_of i }
{
    if i < ONE_OWN {
        Plan {
            own: false,
            first: i,
            second: 0,
        }
    } else if i < TWO {
        Plan {
            own: true,
            first: i - ONE_OWN,
            second: 0,
        }
    } else if i < TWO_OWN {
        Plan {
            own: false,
            first: (i - TWO) / CHOICES,
            second: (i - TWO) % CHOICES,
        }
    } else {
        Plan {
            own: true,
            first: (i - TWO_OWN) / OWN_CHOICES,
            second: (i - TWO_OWN) % OWN_CHOICES,
        }
    }
}

// The record of a type with these choices.
fn planned_record(p: Plan) -> TypeRec
    requires { (p.first < 10) × (p.second < 10) }
    ensures { raw_of result ≡ plan_raw p }
{
    let mut t = TypeRec::empty();
    t.head.own = u8::from(p.own);
    t.methods[0] = choice(p.own, p.first);
    t.methods[1] = choice(p.own, p.second);
    t
}

// The record of the type of sheet i.
pub fn type_of(i: usize) -> TypeRec
    requires { i < tiny_count }
    ensures { raw_of result ≡ type_record (type_at (tiny_at i) 0) }
{
    planned_record(planned(i))
}

// The counts of the table of sheet i.
pub fn counts_of(i: usize) -> Counts
    requires { i < tiny_count }
    ensures { result ≡ tiny_counts (tiny_at i).methods }
{
    Counts {
        subjects: 1,
        methods: if i < TWO { 1 } else { 2 },
        cats: 0,
        sheet: 1,
        types: 1,
    }
}
