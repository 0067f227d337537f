// The worked examples that are run, each a zone dissolved over the real table of a file: the empty list, T7 to T9, a list that
// names a cell again, all 122 cells of resolution 0, and one cell whose outline of 13,122 edges fits a table.
#![tactic(auto)]

mod show;

ghost use Rattle.std.specs.Prelude.{◌≡◌};
ghost use Rattle.desk.specs.Loads.{count_of};
ghost use Rattle.worked_examples.specs.BaseCells.{all_of_base};

use desk::arrays::{EDGES, row_zeros, text_zeros};
use desk::load_table;
use full_size::dissolve_list;
use lent::Table;
use lent::arrays::OutputArrays;
use show::Shown;
use std::rt::Files;

// Six hexagons of resolution 9, around the one in their middle.
const AROUND: [u64; 6] = [
    0x0892_8308_2803_ffff,
    0x0892_8308_2807_ffff,
    0x0892_8308_283b_ffff,
    0x0892_8308_2877_ffff,
    0x0892_8308_2873_ffff,
    0x0892_8308_280b_ffff,
];

const CENTRE: u64 = 0x0892_8308_280f_ffff;

// A hexagon of resolution 2, seven levels above its table's edges.
const COARSE: u64 = 0x0821_fb7f_ffff_ffff;

// The 122 cells of resolution 0.
fn base_cells() -> [u64; 122]
    ensures { result ≡ all_of_base }
{
    let mut cells = [0u64; 122];
    for b in 0..122 {
        cells[b] = 0x0800_1fff_ffff_ffff + b as u64 * 0x2000_0000_0000;
    }
    cells
}

// Two rings and as many edges as a table can draw.
fn show_dissolved<R: Print>(rt: &R, table: &Table<'_>, list: &[u64], mode: usize) {
    let mut arrays = OutputArrays::<2, EDGES>::new();
    let mut output = arrays.lend(2, EDGES);
    let answer = dissolve_list(table, list, &mut output, mode);
    let shown = Shown {
        answer,
        lengths: output.size,
    };
    let _ = println!(rt; "; {shown}");
}

// A table that cannot be taken has no rows, and every call refuses it by 1.
fn rows_of(loaded: Option<usize>) -> usize
    ensures { result ≡ count_of loaded }
{
    loaded.unwrap_or(0)
}

// Dissolves a list of cells over the table of a file, and shows what comes of it.
fn show_zone<R: Files + Print>(rt: &R, title: &str, file: &[u8], list: &[u64], mode: usize) {
    let mut edges = row_zeros::<u64>();
    let mut reverse = row_zeros::<u32>();
    let mut area = row_zeros::<f64>();
    let mut text = text_zeros();
    let loaded = load_table(rt, file, &mut text, &mut edges, &mut reverse, &mut area);
    let rows = rows_of(loaded);
    let cells = list.len();
    let _ = print!(rt; "{title}: rows {rows}, cells {cells}");
    let table = Table {
        edges: &edges[..rows],
        reverse: &reverse[..rows],
        area: &area[..rows],
    };
    show_dissolved(rt, &table, list, mode);
}

fn main(rt: HostRuntime) {
    let around = AROUND;
    let seven = [
        around[0], around[1], around[2], around[3], around[4], around[5], CENTRE,
    ];
    let again = [CENTRE, around[0], CENTRE];
    let world = base_cells();
    let coarse = [COARSE];
    show_zone(&rt, "the empty list", b"seven_r9.table", &around[..0], 0);
    show_zone(&rt, "T7, two hexagons", b"seven_r9.table", &around[..2], 0);
    show_zone(
        &rt,
        "T8, six around an absent one",
        b"seven_r9.table",
        &around,
        0,
    );
    show_zone(&rt, "T9, then the centre", b"seven_r9.table", &seven, 0);
    show_zone(&rt, "a cell named again", b"seven_r9.table", &again, 0);
    show_zone(&rt, "all of resolution 0", b"world_r0.table", &world, 0);
    show_zone(&rt, "delta 7", b"gosper_d7_r9.table", &coarse, 1);
}
