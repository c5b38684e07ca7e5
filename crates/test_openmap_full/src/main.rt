// A journal of 32,768 bytes, the longest there can be (SCOPE 6.11).
#![tactic(auto)]

fn main(rt: HostRuntime) {
    openmap_main::open_map(&rt);
}
