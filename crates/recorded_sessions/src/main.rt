// console on the sessions that were recorded from the model in tools/model: what it prints is compared with what the model answers. Uses `terminal`.
// Kept: the same program as console, since its stdin and stdout are a test of their own, and a crate has one of each.
#![tactic(auto)]

fn main(rt: HostRuntime) {
    terminal::run(&mut rt.stdin(), &mut rt.stdout());
}
