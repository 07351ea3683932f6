// poller over sessions recorded from the model. Uses `poll_terminal`.
// Kept: the same program as poller, since its stdin and stdout are a test of their own, and a crate has one of each.
#![tactic(auto)]

fn main(rt: HostRuntime) {
    poll_terminal::run(&mut rt.stdin(), &mut rt.stdout());
}
