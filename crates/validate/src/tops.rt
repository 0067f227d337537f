// The indices of a part in order, each raised to that of a cell over it: so a cell under any of the part is found by the first index from it on.
ghost use Rattle.cell_lookup.specs.Lookup.{Ordered, Raised};

use cell_lookup::top_over;
use slices::put32;

// Each place takes the index of a cell over its own that lies under no other, where there is one. The cells under one
// stand right before it, so the last that lay under none is the one to try.
pub fn raise(order: &mut [u32], part: &[u64])
    requires { Ordered part.now order.old }
    ensures { Raised part.now order.new }
{
    // Where there is no top yet it is the number of cells, as `top_over` takes it.
    let mut top = part.len();
    for p in (0..part.len()).rev() {
        top = top_over(order, part, p, top);
        put32(order, p, top);
    }
}
