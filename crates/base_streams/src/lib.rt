// Standard input and output as the programs use them (P20): a read that fails must not pass for the end of the input, and a write that fails is told. No
// contract can say what is read or written; these say that what counts as read stands in the buffer.
#![tactic(auto)]

ghost use Rattle.std.specs.Io.{ReadsAtMost};

use std::io;
use std::io::{Read, Stderr, Stdin, Stdout, Write};

// Reads until the buffer is full or the input ends.
pub fn read_input(stdin: &mut Stdin, buf: &mut [u8]) -> io::Result<usize>
    ensures { ReadsAtMost result buf.new }
{
    let mut done = 0;
    while done < buf.len() {
        let n = stdin.read(&mut buf[done..])?;
        if n == 0 {
            break;
        }
        done += n;
    }
    Ok(done)
}

// Writes to standard output, or says on the error stream that it could not.
pub fn print(stdout: &mut Stdout, stderr: &mut Stderr, text: &[u8], failed: &[u8]) {
    if stdout.write_all(text).is_err() {
        complain(stderr, failed);
    }
}

// Says something on the error stream; where nobody can read it, nothing more can be done.
pub fn complain(stderr: &mut Stderr, text: &[u8]) {
    let _ = stderr.write_all(text);
}
