// Runs worked out by hand: lines from standard input, what they print to standard output. Uses `sheet`.
// Kept: the same program as recorded_runs, since its stdin and stdout are a test of their own, and a crate has one of each.
#![tactic(auto)]

fn main(rt: HostRuntime) {
    sheet::reader::run(&mut rt.stdin(), &mut rt.stdout());
}
