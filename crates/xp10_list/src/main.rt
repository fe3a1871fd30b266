// A test of the tool: pairs on standard input, and their list on standard output.
// stays: the program xp10 once more, since a crate has one stored run
#![tactic(auto)]

fn main(rt: HostRuntime) {
    tool::run(rt);
}
