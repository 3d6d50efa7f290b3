// The program `tiny`: every tiny sheet to standard output (P21). What is printed is proved of `tiny_output::tiny`. A write that fails is said on the error
// stream.
#![tactic(auto)]

use tiny_output::PRINTED_BYTES;

fn main(rt: HostRuntime) {
    let mut stdout = rt.stdout();
    let mut stderr = rt.stderr();
    let mut out = [0u8; PRINTED_BYTES];
    let Ok(length) = tiny_output::tiny(&mut out) else {
        return;
    };
    base_streams::print(
        &mut stdout,
        &mut stderr,
        &out[..length],
        b"tiny: cannot write standard output\n",
    );
}
