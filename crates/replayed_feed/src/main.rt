// Cells offered one by one to a standing state in bytes, as a host does: T8 and T9 with a slot too few and with enough, and a
// feed that sends cells again. What is read out at the end is held to a dissolve of the cells that were accepted.
#![tactic(auto)]

mod show;

ghost use Rattle.std.specs.Prelude.{◌*◌, ◌≤◌, length};

use byte_calls::{dissolve, standing};
use codec::ToBytes;
use files::read_file;
use show::{Answer, ReadOut, Table};

// The calls on a standing state, by their numbers.
#[derive(Clone, Copy, Debug, PartialEq, Eq)]
enum Call {
    Open,
    Offer,
    ReadOut,
}

const EVEN: u32 = 0;

const PLACES: u32 = 7;

// Six hexagons around another, and then that one.
const SEVEN: [u64; 7] = [
    0x0892_8308_2803_ffff,
    0x0892_8308_2807_ffff,
    0x0892_8308_283b_ffff,
    0x0892_8308_2877_ffff,
    0x0892_8308_2873_ffff,
    0x0892_8308_280b_ffff,
    0x0892_8308_280f_ffff,
];

// The same as a broker sends them that starts again twice, each time with cells that were taken before.
const FEED: [u64; 12] = [
    0x0892_8308_2803_ffff,
    0x0892_8308_2807_ffff,
    0x0892_8308_283b_ffff,
    0x0892_8308_2807_ffff,
    0x0892_8308_283b_ffff,
    0x0892_8308_2877_ffff,
    0x0892_8308_2873_ffff,
    0x0892_8308_280b_ffff,
    0x0892_8308_2803_ffff,
    0x0892_8308_2873_ffff,
    0x0892_8308_280f_ffff,
    0x0892_8308_280f_ffff,
];

// Offers the cells of a feed in turn and keeps those that are accepted: where their list ends.
fn offer_each<R: Print>(
    rt: &R,
    table: &[u8],
    state: &mut [u8],
    accepted: &mut [u8],
    feed: &[u64],
    slots: u32,
) -> usize
    requires { 8 * length feed.now ≤ length accepted.old }
    ensures { result ≤ 8 * length feed.now }
{
    let mut out = [0u8; 24];
    let mut end = 0;
    for &cell in feed {
        let result = standing(
            table,
            state,
            &mut out,
            slots,
            PLACES,
            Call::Offer as u32,
            cell,
        );
        let answer = Answer(result);
        let _ = println!(rt; "{cell:016x} {answer}");
        if result == 0 {
            cell.write(accepted, end);
            end += 8;
        }
    }
    end
}

// A feed offered to a state that is newly opened, then read out.
fn replay_in<R: Print>(rt: &R, table: &[u8], state: &mut [u8], feed: &[u64], slots: u32)
    requires { length feed.now ≤ 12 }
{
    let mut accepted = [0u8; 96];
    let mut out = [0u8; 256];
    let mut again = [0u8; 256];
    standing(table, state, &mut out, slots, PLACES, Call::Open as u32, 0);
    let end = offer_each(rt, table, state, &mut accepted, feed, slots);
    let read = standing(
        table,
        state,
        &mut out,
        slots,
        PLACES,
        Call::ReadOut as u32,
        0,
    );
    let dissolved = dissolve(table, &accepted[..end], &mut again, EVEN, slots, PLACES);
    let answer = Answer(read);
    if read == 0 {
        let outline = ReadOut { bytes: &out };
        let _ = println!(rt; "read out {answer}: {outline}");
    } else {
        let _ = println!(rt; "read out {answer}");
    }
    let same = if read == dissolved && out == again {
        "the same"
    } else {
        "other"
    };
    let _ = println!(rt; "dissolving the accepted cells gives {same} bytes");
}

// The state of 60 rows, 7 places and so many slots has 628 + 16 * slots bytes.
fn replay<R: Print>(rt: &R, table: &[u8], title: &str, feed: &[u64], slots: u32)
    requires { (length feed.now ≤ 12) × (slots ≤ 30) }
{
    let mut state = [0u8; 1108];
    let size = 628 + 16 * slots as usize;
    let _ = println!(rt; "{title}, slots {slots}");
    replay_in(rt, table, &mut state[..size], feed, slots);
}

fn main(rt: HostRuntime) {
    let mut table = [0u8; 1200];
    let seven = SEVEN;
    let feed = FEED;
    let read = Table(read_file(&rt, b"seven_r9.table", &mut table));
    let _ = println!(rt; "{read}");
    replay(&rt, &table, "T8", &seven[..6], 27);
    replay(&rt, &table, "T8", &seven[..6], 28);
    replay(&rt, &table, "T9", &seven, 29);
    replay(&rt, &table, "T9", &seven, 30);
    replay(&rt, &table, "a replayed feed", &feed, 30);
}
