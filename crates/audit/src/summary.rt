// What an audit says, as text into a lent slice.
ghost use Rattle.std.specs.Prelude.{◌≡◌, ◌≤◌, ◌<◌, ◌^◌, length};
ghost use Rattle.scope.specs.Lists.{at as place_of};
ghost use Rattle.text.specs.Text.{Wrote};
ghost use Rattle.audit.specs.Feed.{points_unchecked, points_over};
ghost use Rattle.audit.specs.Summary.{refused_text, refusals_text, offers_text, counts_text, unread_text, standing_text, afresh_text, points_text, audit_text};

use note_text::put_noted;
use refusal_text::put_words;
use scope::{ReadOut, Refusal};
use text::put_bytes;

// The count of a number, 0 past the end.
fn count_at(counts: &[usize], number: usize) -> usize
    ensures { result ≡ place_of counts.now number }
{
    counts.get(number).copied().unwrap_or(0)
}

// How many offers were refused by a number, where some were.
fn put_refused(out: &mut [u8], at: usize, counts: &[usize], number: usize) -> usize
    requires { at ≤ length out.old }
    ensures { Wrote out.old at out.new result (refused_text counts.now number) }
{
    let count = count_at(counts, number);
    if count == 0 {
        return at;
    }
    let named = put_noted(out, at, b"refused by ", number, b": ");
    let numbered = put_noted(out, named, b"", count, b", ");
    let worded = put_words(out, numbered, number);
    put_bytes(out, worded, b"\n")
}

fn put_refusals(out: &mut [u8], at: usize, counts: &[usize]) -> usize
    requires { at ≤ length out.old }
    ensures { Wrote out.old at out.new result (refusals_text counts.now) }
{
    let mut place = at;
    for i in 0..10 {
        place = put_refused(out, place, counts, i + 1);
    }
    place
}

// The offers by their verdicts.
fn put_offers(out: &mut [u8], at: usize, offered: usize, counts: &[usize]) -> usize
    requires { at ≤ length out.old }
    ensures { Wrote out.old at out.new result (offers_text offered counts.now) }
{
    let accepted = count_at(counts, 0);
    let replays = count_at(counts, 3);
    let of_all = put_noted(out, at, b"offered ", offered, b"\n");
    let of_accepted = put_noted(out, of_all, b"accepted ", accepted, b"\n");
    let of_refused = put_refusals(out, of_accepted, counts);
    put_noted(
        out,
        of_refused,
        b"replays that would each have drawn a second outline ",
        replays,
        b"\n",
    )
}

fn put_counts(out: &mut [u8], at: usize, polygons: usize, rings: usize) -> usize
    requires { at ≤ length out.old }
    ensures { Wrote out.old at out.new result (counts_text polygons rings) }
{
    let of_polygons = put_noted(out, at, b"standing outline: polygons ", polygons, b"");
    put_noted(out, of_polygons, b", rings ", rings, b"\n")
}

fn put_unread(out: &mut [u8], at: usize, number: usize) -> usize
    requires { at ≤ length out.old }
    ensures { Wrote out.old at out.new result (unread_text number) }
{
    let numbered = put_noted(out, at, b"standing outline: refused ", number, b", ");
    let worded = put_words(out, numbered, number);
    put_bytes(out, worded, b"\n")
}

#[tactic(auto, unfolding(crate::specs::Summary::standing_text))]
fn put_standing(out: &mut [u8], at: usize, standing: Result<ReadOut, Refusal>) -> usize
    requires { at ≤ length out.old }
    ensures { Wrote out.old at out.new result (standing_text standing) }
{
    match standing {
        Ok(ReadOut::Nothing) => {
            put_bytes(out, at, b"standing outline: nothing, no cell is held\n")
        }
        Ok(ReadOut::Closed) => put_bytes(out, at, b"standing outline: closed, no edge stands\n"),
        Ok(ReadOut::Outline(polygons, rings, _)) => put_counts(out, at, polygons, rings),
        Err(refusal) => put_unread(out, at, refusal.number()),
    }
}

fn afresh_words(same: bool) -> &'static [u8]
    ensures { result.now ≡ afresh_text same }
{
    if same {
        return b"dissolved afresh from the accepted cells: the same\n";
    }
    b"dissolved afresh from the accepted cells: ANOTHER OUTLINE\n"
}

// The points credited beyond one for each visit.
fn points_over(visits: usize, counts: &[usize]) -> usize
    ensures { result ≡ points_over visits counts.now }
{
    count_at(counts, 0).saturating_sub(visits)
}

// One visit to each held cell: the points without the check, and with it.
fn put_points(out: &mut [u8], at: usize, visits: usize, counts: &[usize]) -> usize
    requires { (at ≤ length out.old) × (points_unchecked counts.now < 2 ^ 64) }
    ensures { Wrote out.old at out.new result (points_text visits counts.now) }
{
    let accepted = count_at(counts, 0);
    let replays = count_at(counts, 3);
    let over = points_over(visits, counts);
    let of_visits = put_noted(
        out,
        at,
        b"one visit to each held cell: visits ",
        visits,
        b"\n",
    );
    let of_unchecked = put_noted(
        out,
        of_visits,
        b"points credited without the check ",
        accepted + replays,
        b"\n",
    );
    let of_credited = put_noted(out, of_unchecked, b"points credited here ", accepted, b"\n");
    put_noted(out, of_credited, b"points over ", over, b"\n")
}

// The whole of it.
pub fn put_audit(
    out: &mut [u8],
    at: usize,
    offered: usize,
    counts: &[usize],
    standing: Result<ReadOut, Refusal>,
    same: bool,
    visits: usize,
) -> usize
    requires { (at ≤ length out.old) × (points_unchecked counts.now < 2 ^ 64) }
    ensures { Wrote out.old at out.new result (audit_text offered counts.now standing same visits) }
{
    let of_offers = put_offers(out, at, offered, counts);
    let of_standing = put_standing(out, of_offers, standing);
    let of_afresh = put_bytes(out, of_standing, afresh_words(same));
    put_points(out, of_afresh, visits, counts)
}
