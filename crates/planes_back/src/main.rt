// planes run again: its standard input is the output of the run that `planes` stores, and its output is that run's input. Uses `storage`.
// Kept: the same program as planes, since its stdin and stdout are a test of their own, and a crate has one of each.
#![tactic(auto)]

fn main(rt: HostRuntime) {
    storage::run(&mut rt.stdin(), &mut rt.stdout());
}
