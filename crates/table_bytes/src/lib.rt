// The bytes of a table file into lent slices: rows of 20 bytes, as the library for Rust and C takes them.
#![tactic(auto)]

ghost use Rattle.std.specs.Prelude.{◌≡◌, ◌*◌, ◌≤◌, length};
ghost use Rattle.scope.specs.Table.{table};
ghost use Rattle.scope.specs.Bytes.{rows_in, table_in};
ghost use Rattle.table_bytes.specs.Files.{file_of, over_table, TableRead};

use wire::columns::decode_table;

// What is wrong with a file: a row that is cut off, or the first that there is no room for, by the byte that it begins at.
#[derive(Clone, Copy, Debug, PartialEq, Eq)]
pub enum TableFault {
    CutOff(usize),
    TooMany(usize),
}

// How many rows a file of so many bytes has.
#[tactic(auto, unfolding(crate::specs::Files::file_of))]
fn file_of(bytes: &[u8], room: usize) -> Result<usize, TableFault>
    ensures { result ≡ file_of room bytes.now }
{
    let whole = bytes.len() / 20;
    if room < whole {
        return Err(TableFault::TooMany(room * 20));
    }
    let rest = bytes.len() % 20;
    if rest != 0 {
        return Err(TableFault::CutOff(bytes.len() - rest));
    }
    Ok(whole)
}

// The rows of `bytes` into the start of the slices.
fn decode_rows(bytes: &[u8], edges: &mut [u64], reverse: &mut [u32], area: &mut [f64])
    requires { (rows_in bytes.now ≤ length edges.old) × (rows_in bytes.now ≤ length reverse.old) × (rows_in bytes.now ≤ length area.old) }
    ensures { table edges.new reverse.new area.new ≡ over_table (table_in bytes.now) (table edges.old reverse.old area.old) }
{
    let rows = bytes.len() / 20;
    decode_table(
        bytes,
        &mut edges[..rows],
        &mut reverse[..rows],
        &mut area[..rows],
    );
}

// The table of a file's bytes into the start of the slices: how many rows it has.
pub fn read_table(
    bytes: &[u8],
    edges: &mut [u64],
    reverse: &mut [u32],
    area: &mut [f64],
) -> Result<usize, TableFault>
    ensures { TableRead bytes.now (table edges.old reverse.old area.old) result (table edges.new reverse.new area.new) }
{
    let room = edges.len().min(reverse.len()).min(area.len());
    let rows = file_of(bytes, room)?;
    decode_rows(bytes, edges, reverse, area);
    Ok(rows)
}
