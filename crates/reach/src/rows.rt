ghost use Rattle.std.specs.Prelude.{◌≡◌, vec_len};

use crate::row::Row;

// N rows, by their places.
#[derive(Drop)]
pub struct Rows<const N: usize> {
    pub(crate) rows: Vec<Row>,
    ghost room: { vec_len rows ≡ N },
}
