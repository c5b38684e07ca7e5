// A journal with checkpoints and restores (SCOPE 6.15, 6.16): a name that is moved, undos behind a restore, a checkpoint behind one; the last
// line was cut off. The expected output was worked out by hand.
#![tactic(auto)]

fn main(rt: HostRuntime) {
    openmap_main::open_map(&rt);
}
