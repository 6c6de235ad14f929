// What is shown to who asks for help. The script `raidzx` at the top of the repository shows the page and the version
// too, before there is a program.

/// What stands behind the program's name.
pub const VERSION: &str =
    "(pools of format 1); the manual: docs/raidzx.1, to be read by man -l docs/raidzx.1";

pub const PAGE: &str = "\
keeps blocks of bytes on several disks, of which one to three may be lost (pools of format 1)
raidzx IMAGE.. -- create --parity P --width W --id N
    makes a pool on the first W images; P of their disks may be lost; what they held is gone
raidzx IMAGE.. -- run [--attach] <SCRIPT
    carries out the calls of a script; with --attach the IMAGE behind the pool's joins it
raidzx IMAGE.. -- replay <SCRIPT         the same, turn by turn
raidzx IMAGE.. -- status                 tells where the pool stands, and only reads
options may stand in any order, and as --parity=P
each IMAGE is a file or a disk: name all of the pool's, in their order; for a lost one a word at which nothing stands
a script is `clients K`, and then a call a line: the client's letter, and one of
    put ID LEN SEED, puthex ID DIGITS, get ID, sum ID, free ID, sync, attach, copy
an example:
    for image in disk0 disk1 disk2; do fallocate -l 1M $image; done
    raidzx disk0 disk1 disk2 -- create --parity 1 --width 3 --id 9
    printf 'clients 1\\na puthex 7 6869\\na sync\\na get 7\\n' | raidzx disk0 disk1 disk2 -- run
the manual: docs/raidzx.1, to be read by man -l docs/raidzx.1";

pub const CREATE: &str = "\
raidzx IMAGE.. -- create --parity P --width W --id N
    makes a pool on the first W images; P of their disks may be lost; what they held is gone
    P from 1 to 3, W above P and at most 16, N below 2^64; no leading zeros
the manual: docs/raidzx.1, to be read by man -l docs/raidzx.1";

pub const RUN: &str = "\
raidzx IMAGE.. -- run [--attach] <SCRIPT
    carries out the calls of a script; with --attach the IMAGE behind the pool's joins it
the manual: docs/raidzx.1, to be read by man -l docs/raidzx.1";

pub const REPLAY: &str = "\
raidzx IMAGE.. -- replay <SCRIPT
    carries out the calls of a script, turn by turn
the manual: docs/raidzx.1, to be read by man -l docs/raidzx.1";

pub const STATUS: &str = "\
raidzx IMAGE.. -- status
    tells where the pool stands, and only reads
the manual: docs/raidzx.1, to be read by man -l docs/raidzx.1";
