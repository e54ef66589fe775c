// The unit on the paper's book and an input of 65,537 bytes: "Standard input over 65,536 bytes in all prints `query
// refused 1` only". The bytes before the last are 16,384 queries that would be answered.
#![tactic(auto)]

fn main(rt: HostRuntime) {
    program::run_unit(&rt);
}
