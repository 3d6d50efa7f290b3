// The program `script`: a sheet and request lines from standard input, a line for each request to standard output.
// What is printed for which bytes is proved of `script_output::script`. One byte more than the longest input is enough to see that an input is longer (P1).
// Where input or output fails it says so on the error stream; of an input that could not be read to its end nothing is printed.
#![tactic(auto)]

use script_output::{INPUT_BYTES, PRINTED_BYTES};

fn main(rt: HostRuntime) {
    let mut stdin = rt.stdin();
    let mut stdout = rt.stdout();
    let mut stderr = rt.stderr();
    let mut input = [0u8; INPUT_BYTES + 1];
    let Ok(n) = base_streams::read_input(&mut stdin, &mut input) else {
        base_streams::complain(&mut stderr, b"script: cannot read standard input\n");
        return;
    };
    let mut out = [0u8; PRINTED_BYTES];
    let Ok(length) = script_output::script(&input[..n], &mut out) else {
        return;
    };
    base_streams::print(
        &mut stdout,
        &mut stderr,
        &out[..length],
        b"script: cannot write standard output\n",
    );
}
