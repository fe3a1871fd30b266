// The tool: what a command list does, its normal form, its PCI writes.
#![tactic(auto)]

fn main(rt: HostRuntime) {
    tool::run(rt);
}
