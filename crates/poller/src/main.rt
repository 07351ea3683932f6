// A dispatcher to type at: panels join, report and are picked by lines from standard input, answers to standard output. Uses `poll_terminal`.
// Kept: the same program as recorded_polls, since its stdin and stdout are a test of their own, and a crate has one of each.
#![tactic(auto)]

fn main(rt: HostRuntime) {
    poll_terminal::run(&mut rt.stdin(), &mut rt.stdout());
}
