ghost use Rattle.std.specs.Prelude.{◌≡◌, ℕ, ◌≤◌, List, length};
ghost use Rattle.banks.specs.Banks.{office_at};
ghost use Rattle.offices.specs.Model.{OfficeModel, Lawful, bound_at, member_at};

// One sealed office, or a bank and one office more. Offices count from 0 in joining order, and the first 16 are
// heard. A question about an office that is not there gets no roles, no, bound 0 or nothing. Its numbers stay parameters,
// and a bound that is not there is 0, as with an `Office`. It hands no office out: they are of many types, and the check
// takes no `dyn` that a function makes and gives away.
pub trait Bank {
    ghost offices: { Self → List OfficeModel };

    fn office_count(&self) -> u8
        ensures { result ≡ length (offices self.now) };

    fn role_count(&self, office: u8) -> u8
        ensures { result ≡ (office_at (offices self.now) office).roles };

    fn is_over(&self, office: u8, senior: u8, junior: u8) -> bool
        ensures { result ≡ (office_at (offices self.now) office).over senior junior };

    fn is_shared(&self, office: u8, role: u8) -> bool
        ensures { result ≡ (office_at (offices self.now) office).shared role };

    fn set_count(&self, office: u8) -> u8
        ensures { result ≡ length (office_at (offices self.now) office).sets };

    fn set_bound(&self, office: u8, set: u8) -> u8
        ensures { result ≡ bound_at (office_at (offices self.now) office).sets set };

    fn set_member(&self, office: u8, set: u8, place: u8) -> Option<u8>
        ensures { result ≡ member_at (office_at (offices self.now) office).sets set place };

    ghost heard: { (x : Self) → length (offices x) ≤ 16 };

    ghost lawful: { (x : Self) (office : ℕ) → Lawful (office_at (offices x) office) };
}
