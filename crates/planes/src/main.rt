// Turns telegrams into bit planes: words of 4 bytes from standard input, the lowest byte first, to standard output. Run again it turns them back. Uses `storage`.
// Kept: the same program as planes_back, since its stdin and stdout are a test of their own, and a crate has one of each.
#![tactic(auto)]

fn main(rt: HostRuntime) {
    storage::run(&mut rt.stdin(), &mut rt.stdout());
}
