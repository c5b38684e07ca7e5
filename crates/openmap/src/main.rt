// The program `openmap` (SCOPE 11): a journal in, the map that it gives out. The gate runs it on example k (SCOPE 12).
#![tactic(auto)]

fn main(rt: HostRuntime) {
    openmap_main::open_map(&rt);
}
