// The row of an edge in a table in order, by halving; and notes that spare most of the searches.
#![tactic(auto)]

pub mod notes;

ghost use Rattle.std.specs.Prelude.{◌≡◌, true, length};
ghost use Rattle.scope.specs.Lists.{passes};
ghost use Rattle.scope.specs.Table.{ascends, find_row};
ghost use Rattle.row_search.specs.Search.{RowsBelow};

// How many rows have an edge below the bound, by halving: at most 17 turns in a table of 65,536 rows. The library's partition_point says
// nothing of how many turns it takes, so that at_most_17 would be lost with this loop.
pub fn rows_below(edges: &[u64], bound: u64) -> usize
    requires { passes (ascends edges.now) (length edges.now) ≡ true }
    ensures { RowsBelow edges.now bound result }
{
    let mut low = 0;
    let mut left = edges.len();
    while 0 < left {
        let half = left / 2;
        let middle = low + half;
        if edges[middle] < bound {
            low = middle + 1;
            left -= half + 1;
        } else {
            left = half;
        }
    }
    low
}

// The row of an edge.
pub fn find_row(edges: &[u64], edge: u64) -> Option<usize>
    requires { passes (ascends edges.now) (length edges.now) ≡ true }
    ensures { result ≡ find_row edges.now edge }
{
    let low = rows_below(edges, edge);
    (low < edges.len() && edges[low] == edge).then_some(low)
}
