// What the calls on bytes share: the host's limits as tests, and the cells of a list.
#![tactic(auto)]

pub mod arrays;
pub mod fits;

ghost use Rattle.std.specs.Prelude.{◌≡◌, ◌/◌, length};
ghost use Rattle.scope.specs.Bytes.{cells_in};

use codec::decode;

// The cells of a list, eight bytes each.
pub fn decode_cells(bytes: &[u8], list: &mut [u64])
    requires { length list.old ≡ length bytes.now / 8 }
    ensures { list.new ≡ cells_in bytes.now }
{
    decode(bytes, list, 0, 8);
}
