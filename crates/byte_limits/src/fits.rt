// The host's limits, refusal 10: whole records, at most 1,024 rows, 1,024 slots, 256 places and 256 cells, and a state's own length.
ghost use Rattle.std.specs.Prelude.{◌≡◌, ◌&&◌, eqb, length};
ghost use Rattle.scope.specs.Bytes.{rows_in, table_fits, list_fits, room_fits, state_size};

fn table_fits(table: &[u8]) -> bool
    ensures { result ≡ table_fits table.now }
{
    table.len() % 20 == 0 && table.len() / 20 <= 1024
}

fn list_fits(cells: &[u8]) -> bool
    ensures { result ≡ list_fits cells.now }
{
    cells.len() % 8 == 0 && cells.len() / 8 <= 256
}

fn room_fits(slots: u32, places: u32) -> bool
    ensures { result ≡ room_fits slots places }
{
    slots <= 1024 && places <= 256
}

// How many bytes a state has.
fn state_size(table: &[u8], slots: u32, places: u32) -> usize
    ensures { result ≡ state_size (rows_in table.now) slots places }
{
    8 + 20 * places as usize + 16 * slots as usize + 8 * (table.len() / 20)
}

pub fn dissolve_fits(table: &[u8], cells: &[u8], slots: u32, places: u32) -> bool
    ensures { result ≡ (table_fits table.now && list_fits cells.now && room_fits slots places) }
{
    table_fits(table) && list_fits(cells) && room_fits(slots, places)
}

pub fn standing_fits(table: &[u8], state: &[u8], slots: u32, places: u32) -> bool
    ensures { result ≡ (table_fits table.now && room_fits slots places && eqb (length state.now) (state_size (rows_in table.now) slots places)) }
{
    table_fits(table) & room_fits(slots, places) && state.len() == state_size(table, slots, places)
}
