// Every refusal that a short journal can get (SCOPE 10.4, 11.3), in one run: the journals are the program's own, and their texts go the way of
// `openmap`, but for the reading.
#![tactic(auto)]

fn main(rt: HostRuntime) {
    // Size, seed, sea level and world height off their limits: the size comes first.
    openmap_main::print_map(&rt, b"G\t10000001\t4097\t1\t65\t0\t128\t0\nX\n");
    // Seed, sea level and world height off their limits, and a size above 16: the seed comes first.
    openmap_main::print_map(&rt, b"G\t10000001\t4097\t1\t17\t0\t128\t0\nX\n");
    // Sea level and world height off their limits, and a size above 16: the sea level comes first.
    openmap_main::print_map(&rt, b"G\t10000000\t-4097\t1\t17\t0\t128\t0\nX\n");
    // World height and place off their limits, and a size above 16: the world height comes first.
    openmap_main::print_map(&rt, b"G\t10000000\t-4096\t4097\t64\t15625\t128\t0\nX\n");
    // A place off its limits and a size above 16: the place comes first.
    openmap_main::print_map(&rt, b"G\t10000000\t-4096\t4096\t64\t15624\t-15626\t0\nX\n");
    // A size above 16, and a later line that is bad: the size comes first.
    openmap_main::print_map(&rt, b"G\t0\t4096\t256\t17\t0\t128\t0\nX\n");
    // A first line without its LF; it has six numbers, and its size is off the limits: the LF comes first.
    openmap_main::print_map(&rt, b"G\t0\t4096\t256\t65\t0\t128");
    // A first line of six numbers; its size is off the limits, too, and a later line is bad.
    openmap_main::print_map(&rt, b"G\t0\t4096\t256\t65\t0\t128\nX\n");
    // The third line's column is higher than the chunk.
    openmap_main::print_map(
        &rt,
        b"G\t0\t4096\t256\t2\t0\t128\t0\nS\t0\t0\t0\t0\nC\t1\t0\t3\t8\nU\nU\n",
    );
    // A restore of a name that no line has made.
    openmap_main::print_map(&rt, b"G\t0\t4096\t256\t2\t0\t128\t0\nM\twalls\nR\troof\n");
    // A name with a capital letter.
    openmap_main::print_map(&rt, b"G\t0\t4096\t256\t2\t0\t128\t0\nM\twallS\n");
    // A name of 17 letters, behind one of 16.
    openmap_main::print_map(
        &rt,
        b"G\t0\t4096\t256\t2\t0\t128\t0\nM\tabcdefghijklmnop\nM\tabcdefghijklmnopq\n",
    );
    // A seventeenth name.
    openmap_main::print_map(
        &rt,
        b"G\t0\t4096\t256\t2\t0\t128\t0\nM\ta\nM\tb\nM\tc\nM\td\nM\te\nM\tf\nM\tg\nM\th\nM\ti\nM\tj\nM\tk\nM\tl\nM\tm\nM\tn\nM\to\nM\tp\nM\tq\n",
    );
}
