// New and move (N, M), on a state that is known to be sound. Their operands are tested in the order of the rules; then both go the same way: the reference
// crosses, and what came of it becomes a cell. A refusal gives back the state that was handed in; of the types that are lent, those that were counted are as
// they were (Q14).
#![tactic(auto)]

ghost use Rattle.std.specs.Prelude.{◌≡◌, ◌<◌};
ghost use Rattle.spec_model.specs.Requests.{new_request, move_request};
ghost use Rattle.spec_model.specs.Crossing.{max_places};
ghost use Rattle.state_record.specs.Whole.{whole};
ghost use Rattle.state_record.specs.View.{system_in};
ghost use Rattle.state_record.specs.Sound.{Descending, Sound};
ghost use Rattle.request_common.specs.Served.{Step, done};
ghost use Rattle.request_new_move.specs.Sent.{sent_to, Sends, Made};

use base_numbers::index_of;
use base_numbers::refusal::Refusal;
use crossing_one::Crossing;
use request_common::Answer;
use state_record::{Place, PlaceRec, Places, State};
use table_record::TYPE_BYTES;

// What crosses to a place of `ps` becomes a cell of its receiver (N6 to N8, M4 to M6).
fn send(
    types: &mut [u8; TYPE_BYTES],
    s: &mut State,
    ps: Places,
    x: Crossing,
) -> Result<Answer, Refusal>
    requires { Sends (whole types.old s.old) ps x }
    ensures { Step (whole types.old s.old) (sent_to (whole types.old s.old) ps x) (done types.new s.new result) }
{
    let y = crossing_one::cross(types, &s.links, s.counts, ps, x)?;
    request_common::add_cell(s, y.types, y.places, x.receiver, y.ty, y.place)
}

// An object of the class, owned by the subject, is the next place (N5).
fn make(ps: Places, class: usize, owner: usize) -> Places
    requires { Descending ps × (ps.count < max_places) × (class < 256) × (owner < 256) }
    ensures { Made ps class owner result }
{
    let place = Place::Object {
        class: class as u8,
        owner: owner as u8,
    };
    ps.add(PlaceRec { place })
}

// New (N): an object of a sheet class, and a cell of the subject that refers to it.
pub fn new_step(
    types: &mut [u8; TYPE_BYTES],
    s: &mut State,
    subject: i64,
    class: i64,
    to: i64,
) -> Result<Answer, Refusal>
    requires { Sound (whole types.old s.old) }
    ensures { Step (whole types.old s.old) (new_request (system_in (whole types.old s.old)) subject class to)
        (done types.new s.new result) }
{
    let c = s.counts;
    if !request_common::is_subject(c, subject) {
        return Err(Refusal::UnknownSubject);
    }
    if !request_common::is_sheet_class(types, c, class) {
        return Err(Refusal::UnknownType);
    }
    if !request_common::is_sheet_ref(types, c, to) {
        return Err(Refusal::UnknownType);
    }
    let ps = s.places;
    if State::PLACES <= ps.count {
        return Err(Refusal::PlacesFull);
    }
    let owner = index_of(subject, c.subjects);
    let ty = index_of(class, c.sheet);
    let target = index_of(to, c.sheet);
    let made = make(ps, ty, owner);
    let x = Crossing {
        from: ty,
        place: ps.count,
        to: target,
        receiver: owner,
    };
    send(types, s, made, x)
}

// Move (M): the reference in the cell crosses and becomes a cell of the receiver; the cell that is moved stays (M6).
pub fn move_step(
    types: &mut [u8; TYPE_BYTES],
    s: &mut State,
    subject: i64,
    cell: i64,
    receiver: i64,
    to: i64,
) -> Result<Answer, Refusal>
    requires { Sound (whole types.old s.old) }
    ensures { Step (whole types.old s.old) (move_request (system_in (whole types.old s.old)) subject cell receiver to)
        (done types.new s.new result) }
{
    let c = s.counts;
    if !request_common::is_subject(c, subject) {
        return Err(Refusal::UnknownSubject);
    }
    if !request_common::is_subject(c, receiver) {
        return Err(Refusal::UnknownSubject);
    }
    let who = index_of(subject, c.subjects);
    if !request_common::is_held(s.cells, who, cell) {
        return Err(Refusal::NotHeld);
    }
    if !request_common::is_sheet_ref(types, c, to) {
        return Err(Refusal::UnknownType);
    }
    let r = index_of(receiver, c.subjects);
    let target = index_of(to, c.sheet);
    let moved = s.cells.at(index_of(cell, s.cells.count));
    let x = Crossing {
        from: usize::from(moved.ty),
        place: usize::from(moved.place),
        to: target,
        receiver: r,
    };
    let ps = s.places;
    send(types, s, ps, x)
}
