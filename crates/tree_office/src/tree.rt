ghost use Rattle.std.specs.Prelude.{◌≡◌, length};
ghost use Rattle.tree_office.specs.Climb.{Grows, senior_of};

// The direct senior of each of 64 roles, and no circle. (By number, with no boxes: everyone knows a role by its number, and
// drafting has no heap.)
#[derive(Drop)]
pub struct Tree {
    pub(crate) seniors: [Option<u8>; 64],
    ghost room: { length seniors ≡ 64 },
    ghost grows: { ∥ Grows 64 (senior_of seniors) ∥₁ },
}
