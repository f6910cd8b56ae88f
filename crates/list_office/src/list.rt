ghost use Rattle.std.specs.Prelude.{◌≡◌, ◌≤◌, length};
ghost use Rattle.list_office.specs.Pairs.{Acyclic, Rows};
ghost use Rattle.offices.specs.Members.{row_holds};

use crate::pair::Pair;
use arrayvec::ArrayVec;
use offices::RoleSet;

// At most 128 pairs of 64 roles, none in a circle; beside them, for each role, its direct juniors as one set,
// so that a step is a single look.
#[derive(Drop)]
pub struct PairList {
    pub(crate) pairs: ArrayVec<Pair, 128>,
    pub(crate) juniors: [RoleSet; 64],
    ghost most: { length pairs.items ≤ 128 },
    ghost rows: { length juniors ≡ 64 },
    ghost steps: { ∥ Rows (row_holds juniors) pairs.items ∥₁ },
    ghost order: { ∥ Acyclic 64 pairs.items ∥₁ },
}
