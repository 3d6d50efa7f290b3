// The program `pairs`: a sheet from standard input, the four relations of every pair of its types to standard output (P16, P17).
// What is printed for which bytes is proved of `pairs_output::report`; 65,536 bytes are enough to see that an input is longer than 32,768 (P1).
// Where input or output fails it says so on the error stream; of an input that could not be read to its end nothing is printed.
#![tactic(auto)]

const READ_BYTES: usize = 65536;

fn main(rt: HostRuntime) {
    let mut stdin = rt.stdin();
    let mut stdout = rt.stdout();
    let mut stderr = rt.stderr();
    let mut input = [0u8; READ_BYTES];
    let Ok(n) = base_streams::read_input(&mut stdin, &mut input) else {
        base_streams::complain(&mut stderr, b"pairs: cannot read standard input\n");
        return;
    };
    let printed = pairs_output::report(&input[..n]);
    base_streams::print(
        &mut stdout,
        &mut stderr,
        printed.as_bytes(),
        b"pairs: cannot write standard output\n",
    );
}
