// A byte more than a journal can have, without an LF and not G: 9 comes before 10 and 11 (SCOPE 10.4).
#![tactic(auto)]

fn main(rt: HostRuntime) {
    openmap_main::open_map(&rt);
}
