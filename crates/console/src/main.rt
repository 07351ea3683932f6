// A panel to type at: lines of commands from standard input, answers to standard output. Uses `terminal`.
// Kept: the same program as recorded_sessions, since its stdin and stdout are a test of their own, and a crate has one of each.
#![tactic(auto)]

fn main(rt: HostRuntime) {
    terminal::run(&mut rt.stdin(), &mut rt.stdout());
}
