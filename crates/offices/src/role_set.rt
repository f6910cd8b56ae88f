ghost use Rattle.std.specs.Prelude.{◌≡◌, ℕ, false, not, ◌&&◌, ◌||◌, ◌==◌, nat_lt};
ghost use Rattle.offices.specs.Members.{holds, FirstOutside, common_roles};

// A set of roles, each below 64: bit r of the word says whether role r is in it.
#[derive(Clone, Copy)]
pub struct RoleSet {
    word: u64,
}

impl RoleSet {
    pub fn empty() -> RoleSet
        ensures { (i : ℕ) → holds result i ≡ false }
    {
        RoleSet { word: 0 }
    }

    pub fn contains(self, role: u8) -> bool
        ensures { result ≡ holds self role }
    {
        role < 64 && (self.word >> role) & 1 == 1
    }

    // The set with one role more; a role from 64 on has no place in it.
    pub fn with(self, role: u8) -> RoleSet
        ensures { (i : ℕ) → holds result i ≡ (holds self i || (i == role && nat_lt role 64)) }
    {
        if role >= 64 {
            return self;
        }
        RoleSet {
            word: self.word | (1 << role),
        }
    }

    pub fn union(self, other: RoleSet) -> RoleSet
        ensures { (i : ℕ) → holds result i ≡ (holds self i || holds other i) }
    {
        RoleSet {
            word: self.word | other.word,
        }
    }

    // The set without one role.
    pub fn without(self, role: u8) -> RoleSet
        ensures { (i : ℕ) → holds result i ≡ (holds self i && not (i == role)) }
    {
        if role >= 64 {
            return self;
        }
        RoleSet {
            word: self.word & !(1 << role),
        }
    }

    // The lowest role that the other set lacks.
    pub fn first_outside(self, other: RoleSet) -> Option<u8>
        ensures { FirstOutside self other result }
    {
        let outside = self.word & !other.word;
        if outside == 0 {
            return None;
        }
        Some(outside.trailing_zeros() as u8)
    }

    // How many roles both sets have.
    pub fn common(self, other: RoleSet) -> u8
        ensures { result ≡ common_roles self other }
    {
        (self.word & other.word).count_ones() as u8
    }
}
