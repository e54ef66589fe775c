// The unit on the paper's book and four queries, the third without an item: "It answers queries until the bytes are
// used up or one is refused."; "a refused query `query refused N`".
#![tactic(auto)]

fn main(rt: HostRuntime) {
    program::run_unit(&rt);
}
