// The search for a free slot. A flag for each slot, 64 to a word, tells which may be free: where it is clear the slot is used, where it is set
// the slot is looked at. Flags that are all set are right for any pool, so that no state need keep them; where one misleads, the search goes by eights.
#![tactic(auto)]

ghost use Rattle.std.specs.Prelude.{◌≡◌, ◌+◌, ◌*◌, ◌/◌, ◌<◌, ◌≤◌, ◌==◌, not, length};
ghost use Rattle.std.specs.List.{list_all};
ghost use Rattle.std.specs.Int.Count.{count_trailing_zeros};
ghost use Rattle.free_slots.specs.Search.{free_from, vacated, WordAsks, WordFound, SearchAsks, Searched};

use slices::get32;

// Flags of a word.
const WORD: usize = 64;

// All of some slots are used, told with no early end: of eight it is few instructions.
fn all_used(slots: &[u32]) -> bool
    ensures { result ≡ list_all (λ row. not (row == 0)) slots.now }
{
    slots.iter().fold(true, |used, row| used & (*row != 0))
}

// From `start` on, behind as many used slots as go by eights.
fn skip_used(slot_row: &[u32], start: usize) -> usize
    requires { start ≤ length slot_row.now }
    ensures { (result ≤ length slot_row.now) × (free_from slot_row.now result ≡ free_from slot_row.now start) }
{
    let mut slot = start;
    for eight in slot_row[start..].chunks_exact(8) {
        if !all_used(eight) {
            return slot;
        }
        slot += 8;
    }
    slot
}

// The lowest free slot from `start` on, or the pool's size where there is none.
fn next_free(slot_row: &[u32], start: usize) -> usize
    requires { start ≤ length slot_row.now }
    ensures { result ≡ free_from slot_row.now start }
{
    let behind = skip_used(slot_row, start);
    (behind..slot_row.len())
        .find(|slot| slot_row[*slot] == 0)
        .unwrap_or(slot_row.len())
}

// The first word with a flag, from `start` on, where there is one.
fn next_word(vacant: &[u64], start: usize) -> usize
    requires { WordAsks vacant.now start }
    ensures { WordFound vacant.now start result }
{
    (start..vacant.len())
        .find(|place| vacant[*place] != 0)
        .unwrap_or(vacant.len())
}

// The place of a word's lowest flag.
fn lowest_flag(word: u64) -> usize
    ensures { result ≡ count_trailing_zeros 64 word }
{
    word.trailing_zeros() as usize
}

// The lowest free slot, where some is free and none below `start`; the caller uses it. A slot whose flag misleads costs a search by eights.
pub fn lowest_free(slot_row: &[u32], vacant: &mut [u64], start: usize) -> usize
    requires { SearchAsks slot_row.now vacant.old start }
    ensures { Searched slot_row.now start result vacant.new }
{
    let place = next_word(vacant, start / WORD);
    let word = vacant[place];
    let slot = WORD * place + lowest_flag(word);
    if get32(slot_row, slot) != 0 {
        return next_free(slot_row, start);
    }
    vacant[place] = word & (word - 1);
    slot
}

// Sets the flag of a slot.
fn vacate(vacant: &mut [u64], slot: usize)
    requires { slot / 64 < length vacant.old }
    ensures { vacant.new ≡ vacated vacant.old slot }
{
    let place = slot / WORD;
    vacant[place] = vacant[place] | (1 << (slot % WORD));
}

// Sets the flags of two slots.
pub fn vacate_two(vacant: &mut [u64], x: usize, y: usize)
    requires { (x / 64 < length vacant.old) × (y / 64 < length vacant.old) }
    ensures { vacant.new ≡ vacated (vacated vacant.old x) y }
{
    vacate(vacant, x);
    vacate(vacant, y);
}
