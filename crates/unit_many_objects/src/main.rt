// The unit on a book of 64 objects, in one maximal object; objects 1, 32 and 63 have the same attributes and are declared
// as one by kind 15 too: "Object numbers run to 63 in kinds 2 and 4, and every held set of objects grows to 64 bits."
#![tactic(auto)]

fn main(rt: HostRuntime) {
    program::run_unit(&rt);
}
