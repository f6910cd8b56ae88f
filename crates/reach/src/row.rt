ghost use Rattle.std.specs.Prelude.{◌≡◌, ℕ, ◌<◌, false, ◌&&◌, ◌||◌, ◌==◌, nat_lt};
ghost use Rattle.banks.specs.Codes.{code as code_at, office_of, role_of};
ghost use Rattle.offices.specs.Members.{holds};
ghost use Rattle.reach.specs.Rows.{has};

use offices::RoleSet;

// The codes that one source reaches: for each of 16 offices, its roles.
#[derive(Clone, Copy)]
pub struct Row {
    offices: [RoleSet; 16],
}

// The office of a code and its role there. (A bank and a directory split codes of 32 bits, which few offices have.)
fn place(code: u16) -> (usize, u8)
    ensures office { result.0 ≡ office_of code }
    ensures role { result.1 ≡ role_of code }
{
    (usize::from(code / 64), (code % 64) as u8)
}

impl Row {
    pub fn empty() -> Row
        ensures { (b : ℕ) → has result b ≡ false }
    {
        Row {
            offices: [RoleSet::empty(); 16],
        }
    }

    // Some roles of one office; an office from 16 on has no place in a row.
    pub fn of(office: u8, roles: RoleSet) -> Row
        ensures { (b : ℕ) → has result b ≡ (nat_lt office 16 && (office_of b == office && holds roles (role_of b))) }
    {
        let mut row = Row::empty();
        if office < 16 {
            row.offices[usize::from(office)] = roles;
        }
        row
    }

    pub fn contains(&self, code: u16) -> bool
        ensures { result ≡ has self.now code }
    {
        let (office, role) = place(code);
        self.offices
            .get(office)
            .is_some_and(|roles| roles.contains(role))
    }

    // The row with one code more; a code from 1,024 on has no place in it.
    pub fn with(mut self, code: u16) -> Row
        ensures { (b : ℕ) → has result b ≡ (has self b || (b == code && nat_lt code 1024)) }
    {
        let (office, role) = place(code);
        if office < 16 {
            self.offices[office] = self.offices[office].with(role);
        }
        self
    }

    // The roles of one office that the row has.
    pub fn office(&self, office: u8) -> RoleSet
        ensures { (i : ℕ) → i < 64 → holds result i ≡ has self.now (code_at office i) }
    {
        self.offices
            .get(usize::from(office))
            .copied()
            .unwrap_or(RoleSet::empty())
    }

    // What either row has. (No `zip`: after one a proof knows nothing of what `iter_mut` wrote.)
    pub fn join(mut self, other: &Row) -> Row
        ensures { (b : ℕ) → has result b ≡ (has self b || has other.now b) }
    {
        for (office, roles) in self.offices.iter_mut().enumerate() {
            *roles = roles.union(other.offices[office]);
        }
        self
    }
}
