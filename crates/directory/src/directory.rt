ghost use Rattle.std.specs.Prelude.{◌≤◌, vec_len};

use crate::entry::OfficeEntry;

// The answers of the offices of one bank, at most sixteen, each in an entry of its own. (It is no `Bank` itself: it is
// asked about roles by their codes.)
#[derive(Drop)]
pub struct Directory {
    pub(crate) entries: Vec<OfficeEntry>,
    ghost sixteen: { vec_len entries ≤ 16 },
}
