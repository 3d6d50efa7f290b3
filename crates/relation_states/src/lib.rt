// What a relation asks of the states of a method in two types (R8 to R11): a square of yes and no for each relation, read at the two states; and whether both
// sides permit the method (R7). The rule of the two types besides their methods is in crate `relation_rule`.
#![tactic(auto)]

ghost use Rattle.std.specs.Prelude.{◌≡◌, false, ◌&&◌, [], ◌<◌, get_or};
ghost use Rattle.spec_model.specs.Table.{permit};
ghost use Rattle.spec_model.specs.Relations.{state_rule};
ghost use Rattle.spec_model.specs.Check.{state_of};
ghost use Rattle.relation_states.specs.Asked.{relation_of};
ghost use Rattle.relation_states.specs.Squares.{Says};

use table_record::{Method, permits};

// The four relations, and subtype with own not compared (R12), which a crossing asks for (X6).
#[derive(Clone, Copy)]
pub enum Relation {
    Subtype,
    Conforms,
    Strict,
    Loose,
    Free,
}

// R1: the row's state ≤ the column's. Rows and columns are the codes of states.
pub const STATE_ORDER: [[bool; 4]; 4] = [
    [true, true, true, true],
    [false, true, true, true],
    [false, false, true, false],
    [false, false, false, true],
];

// R9: T is avail (its row) only where S is avail
pub const AVAIL_WHERE_AVAIL: [[bool; 4]; 4] = [
    [true, true, true, true],
    [true, true, true, true],
    [false, false, true, false],
    [true, true, true, true],
];

// R10: T is avail only where S permits
pub const AVAIL_WHERE_PERMITTED: [[bool; 4]; 4] = [
    [true, true, true, true],
    [true, true, true, true],
    [false, true, true, false],
    [true, true, true, true],
];

// R11: states are not compared
pub const ANY_STATES: [[bool; 4]; 4] = [
    [true, true, true, true],
    [true, true, true, true],
    [true, true, true, true],
    [true, true, true, true],
];

// The square of yes and no that is the state rule of a relation.
pub fn state_square(k: Relation) -> [[bool; 4]; 4]
    ensures { Says (relation_of k) result }
{
    match k {
        Relation::Subtype | Relation::Conforms => STATE_ORDER,
        Relation::Strict => AVAIL_WHERE_AVAIL,
        Relation::Loose => AVAIL_WHERE_PERMITTED,
        Relation::Free => ANY_STATES,
    }
}

// The row or column of a state's code. A code that names no state is read as unavail.
fn state_index(x: u8) -> usize
    ensures { (result < 4) × (state_of result ≡ state_of x) }
{
    usize::from(x.min(Method::UNAVAIL))
}

// A comparison of two states by a square, which it takes by value (F3).
fn states_compare(square: [[bool; 4]; 4], a: usize, b: usize) -> bool
    requires { (a < 4) × (b < 4) }
    ensures { result ≡ get_or (get_or square a []) b false }
{
    square[a][b]
}

// The state rule of the relation k, whose square is handed in, at the codes of T's state and of S's. Every relation lets a state stand with itself, which most
// pairs ask.
pub fn state_rule(square: &[[bool; 4]; 4], k: Relation, a: u8, b: u8) -> bool
    requires { Says (relation_of k) square.now }
    ensures { result ≡ state_rule (relation_of k) (state_of a) (state_of b) }
{
    a == b || states_compare(*square, state_index(a), state_index(b))
}

// Whether both sides permit a method, by the codes of its states.
pub fn both_permit(x: u8, y: u8) -> bool
    ensures { result ≡ (permit (state_of x) && permit (state_of y)) }
{
    permits(x) && permits(y)
}
