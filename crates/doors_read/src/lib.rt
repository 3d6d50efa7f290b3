// The input of the program `doors` (P27, P28): the tolerance, a line of marks and a line of arrivals. Contracts say what is read in the words of crate
// `spec_doors` (specs/View.antt). Whatever is refused here is a fault of form.
#![tactic(auto)]

ghost use Rattle.std.specs.Prelude.{◌≡◌, length, set, drop};
ghost use Rattle.spec_sheet.specs.Lines.{split, line};
ghost use Rattle.spec_doors.specs.Times.{max_times};
ghost use Rattle.spec_doors.specs.Input.{times_line, input_lines};
ghost use Rattle.doors_read.specs.View.{TimesRead, LineRead, InputRead};

use doors_hold::TIMES;
use text_cursor::{Cursor, between, next_line};
use text_read::LIMIT;

// The whole input: the tolerance, and how many marks and arrivals there are.
#[derive(Clone, Copy)]
pub struct Read {
    pub within: usize,
    pub marks: usize,
    pub arrivals: usize,
}

// Time i of a list; where there is no room for it, nothing is stored.
fn store(items: &mut [u64; TIMES], i: usize, x: u64)
    requires { length items.old ≡ max_times }
    ensures { items.new ≡ set items.old i x }
{
    if i < TIMES {
        items[i] = x;
    }
}

// How many times a line has, none where its form is wrong (P27). Those that there is no room for are counted: that they are too many is for V3 to say (P28).
pub fn read_times(l: &[u8], items: &mut [u64; TIMES]) -> Option<usize>
    requires { length items.old ≡ max_times }
    ensures is { TimesRead (times_line l.now) items.new result }
    ensures size { length items.new ≡ max_times }
{
    if l.is_empty() {
        return Some(0);
    }
    let mut at = 0;
    let mut n = 0;
    // Kept: no count; the line says where each number ends.
    loop {
        let (x, next) = text_read::number_at(l, at)?;
        store(items, n, x as u64);
        n += 1;
        if next == l.len() {
            return Some(n);
        }
        if l[next] != b' ' {
            return None;
        }
        at = next + 1;
    }
}

// The line of times at the cursor, and the cursor behind it. An empty line has no times, so a missing line, or one that no LF ends, is told by the cursor,
// which stays (S8, S9).
pub fn next_times(s: &[u8], c: Cursor, items: &mut [u64; TIMES]) -> Option<(usize, Cursor)>
    requires { length items.old ≡ max_times }
    ensures is { LineRead (line times_line c.at (split (drop c.at s.now))) s.now c.at items.new result }
    ensures size { length items.new ≡ max_times }
{
    let d = next_line(s, c);
    if d.at <= c.at {
        return None;
    }
    let n = read_times(between(s, c, d), items)?;
    Some((n, d))
}

// The three lines, and nothing behind them (P27). No number that is read is above the limit (S2), so that a tolerance of any size has the right form.
pub fn read_input(s: &[u8], marks: &mut [u64; TIMES], arrivals: &mut [u64; TIMES]) -> Option<Read>
    requires { (length marks.old ≡ max_times) × (length arrivals.old ≡ max_times) }
    ensures is { InputRead (input_lines 0 (split s.now)) marks.new arrivals.new result }
    ensures sizes { (length marks.new ≡ max_times) × (length arrivals.new ≡ max_times) }
{
    let g = text_read::next_number(s, Cursor::start(), b"within=", 0, LIMIT);
    let (w, c) = g.ok()?;
    let (m, d) = next_times(s, c, marks)?;
    let (a, e) = next_times(s, d, arrivals)?;
    if e.at < s.len() {
        return None;
    }
    Some(Read {
        within: w,
        marks: m,
        arrivals: a,
    })
}
