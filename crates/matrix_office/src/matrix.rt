ghost use Rattle.std.specs.Prelude.{◌≡◌, length};
ghost use Rattle.offices.specs.Members.{row_holds};
ghost use Rattle.offices.specs.Order.{Order};

use offices::RoleSet;

// The row of a role holds the roles that it is over.
#[derive(Drop)]
pub struct Matrix {
    pub(crate) rows: [RoleSet; 64],
    ghost room: { length rows ≡ 64 },
    ghost order: { ∥ Order 64 (row_holds rows) ∥₁ },
}
