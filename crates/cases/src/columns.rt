// An office that no draft made: its answers are computed from a formula.
ghost use Rattle.std.specs.Prelude.{◌≡◌, ◌%◌, ◌≤◌, min, ◌==◌, nat_lt, refl};
ghost use Rattle.std.proofs.Common.{◌∙◌, arith};
ghost use Rattle.cases.specs.Columns.{columns_model};
ghost use Rattle.std.proofs.lemmas.Bool.{and_parts, ltb-true};
ghost use Rattle.cases.specs.ColumnsOrder.{told, tell};

use offices::Office;

// Roles in eight columns: a role is over those before it in its column, and even roles are shared.
#[derive(Drop)]
pub struct Columns {
    roles: u8,
    ghost few: { roles ≤ 64 },
}

impl Columns {
    pub fn new(roles: u8) -> Columns
        ensures { result.roles ≡ min roles 64 }
    {
        Columns {
            roles: roles.min(64),
        }
    }
}

impl Office for Columns {
    ghost model = { λ x. columns_model x.roles };

    ghost lawful = { λ x.
        let n = x.roles in
        record {
          few = x.few;
          order = record {
            inside = λ a b h. let p = told n a b h in (p.0, p.1);
            itself = λ a l. tell n a a l l refl (omega arith);
            apart = λ a b h k. let p = told n a b h in let q = told n b a k in omega (arith, p.3, q.3);
            across = λ a b c h k. let p = told n a b h in let q = told n b c k in tell n a c p.0 q.1 (p.2 ∙ q.2) (omega (arith, p.3, q.3));
          };
          marks = λ a h. ltb-true a n (and_parts (nat_lt a n) (a % 2 == 0) h).0;
          eight = omega arith;
          shaped = tt;
        } };

    fn role_count(&self) -> u8 {
        self.roles
    }

    fn is_over(&self, senior: u8, junior: u8) -> bool {
        senior < self.roles && junior < self.roles && senior % 8 == junior % 8 && junior <= senior
    }

    fn is_shared(&self, role: u8) -> bool {
        role < self.roles && role % 2 == 0
    }

    fn set_count(&self) -> u8 {
        0
    }

    fn set_bound(&self, set: u8) -> u8 {
        0
    }

    fn set_member(&self, set: u8, place: u8) -> Option<u8> {
        None
    }
}
