// The worked examples of the walk that are run: for each cell and target how many edges the outline has, a digest of all
// of them, and the first six. What it must write was written by the Rust's own walk: rust/oracle, example `walks`.
#![tactic(auto)]

ghost use Rattle.std.specs.Prelude.{◌≡◌, true, ◌≤◌};
ghost use Rattle.scope.specs.Cells.{valid_cell};
ghost use Rattle.scope.specs.Walk.{outline};
ghost use Rattle.walk_examples.specs.Digest.{digest_from};

use gosper::Gosper;

const STDOUT_FILENO: i32 = 1;

// Cells and targets: T1 to T6; delta 7, 8 and 10; pentagons at several deltas; hexagons under pentagons and elsewhere.
const OUTLINES: [(u64, usize); 35] = [
    (0x0800_1fff_ffff_ffff, 0),
    (0x0800_9fff_ffff_ffff, 0),
    (0x0800_1fff_ffff_ffff, 1),
    (0x0800_9fff_ffff_ffff, 1),
    (0x0800_1fff_ffff_ffff, 2),
    (0x0810_03ff_ffff_ffff, 0),
    (0x0821_fb7f_ffff_ffff, 9),
    (0x0800_1fff_ffff_ffff, 8),
    (0x0800_1fff_ffff_ffff, 10),
    (0x0800_9fff_ffff_ffff, 2),
    (0x0800_9fff_ffff_ffff, 3),
    (0x0800_9fff_ffff_ffff, 4),
    (0x0800_9fff_ffff_ffff, 5),
    (0x0800_9fff_ffff_ffff, 6),
    (0x0800_9fff_ffff_ffff, 7),
    (0x0800_9fff_ffff_ffff, 8),
    (0x0811_c3ff_ffff_ffff, 4),
    (0x0823_007f_ffff_ffff, 5),
    (0x0834_c00f_ffff_ffff, 3),
    (0x084e_a001_ffff_ffff, 9),
    (0x08ed_6000_0000_0007, 15),
    (0x08fc_2000_0000_0000, 15),
    (0x0820_817f_ffff_ffff, 5),
    (0x0810_8fff_ffff_ffff, 4),
    (0x080f_3fff_ffff_ffff, 3),
    (0x0812_9bff_ffff_ffff, 6),
    (0x0832_9acf_ffff_ffff, 7),
    (0x0869_2539_77ff_ffff, 9),
    (0x084c_8085_ffff_ffff, 11),
    (0x0817_f7ff_ffff_ffff, 8),
    (0x0890_2924_924b_ffff, 12),
    (0x08c6_f041_0410_41ff, 15),
    (0x08f1_2492_4924_9249, 15),
    (0x0834_2f1f_ffff_ffff, 3),
    (0x0827_897f_ffff_ffff, 9),
];

// A digest of an outline's edges, in their order.
fn digest(cell: u64, target: usize) -> u64
    requires { (valid_cell cell ≡ true) × (target ≤ 15) }
    ensures { result ≡ digest_from 0 (outline cell target) }
{
    let mut walk = Gosper::new(cell, target);
    let mut sum: u64 = 0;
    while 0 < walk.len() {
        let stepped = walk.step();
        sum = (sum * 31 + stepped.edge % 1000000007) % 1000000007;
        walk = stepped.walk;
    }
    sum
}

// The first six edges, or all where there are fewer.
fn print_first(cell: u64, target: usize)
    requires { (valid_cell cell ≡ true) × (target ≤ 15) }
{
    let mut walk = Gosper::new(cell, target);
    for _ in 0..6 {
        if walk.len() == 0 {
            return;
        }
        let stepped = walk.step();
        io::write_all(STDOUT_FILENO, b" ");
        io::print_hex(STDOUT_FILENO, stepped.edge, 16);
        walk = stepped.walk;
    }
}

fn print_valid(cell: u64, target: usize)
    requires { (valid_cell cell ≡ true) × (target ≤ 15) }
{
    io::print_hex(STDOUT_FILENO, cell, 16);
    io::write_all(STDOUT_FILENO, b" ");
    io::print_decimal(STDOUT_FILENO, target as u64);
    io::write_all(STDOUT_FILENO, b": ");
    io::print_decimal(STDOUT_FILENO, Gosper::new(cell, target).len());
    io::write_all(STDOUT_FILENO, b" edges, digest ");
    io::print_decimal(STDOUT_FILENO, digest(cell, target));
    print_first(cell, target);
    io::write_all(STDOUT_FILENO, b"\n");
}

// A number that is no valid cell, or a target past 15, prints nothing.
fn print_outline(cell: u64, target: usize) {
    if index::is_cell(cell) && target <= 15 {
        print_valid(cell, target);
    }
}

fn main() {
    for (cell, target) in OUTLINES {
        print_outline(cell, target);
    }
}
