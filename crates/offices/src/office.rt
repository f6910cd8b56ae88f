ghost use Rattle.std.specs.Prelude.{◌≡◌, length};
ghost use Rattle.offices.specs.Model.{OfficeModel, Lawful, bound_at, member_at};

// An office: roles from 0, which of them are over which, which are shared with other offices, and exclusive
// sets of roles. It is known by these six answers alone; a question about a role, a set or a place that it
// lacks gets no, bound 0 or nothing. (docs/RULES.md has the 0: each real bound is 2 or more.) A question's numbers stay
// parameters of their own: no two questions ask by the same ones, so that a struct for them would serve one question each.
pub trait Office {
    ghost model: { Self → OfficeModel };

    fn role_count(&self) -> u8
        ensures { result ≡ (model self.now).roles };

    fn is_over(&self, senior: u8, junior: u8) -> bool
        ensures { result ≡ (model self.now).over senior junior };

    fn is_shared(&self, role: u8) -> bool
        ensures { result ≡ (model self.now).shared role };

    fn set_count(&self) -> u8
        ensures { result ≡ length (model self.now).sets };

    fn set_bound(&self, set: u8) -> u8
        ensures { result ≡ bound_at (model self.now).sets set };

    fn set_member(&self, set: u8, place: u8) -> Option<u8>
        ensures { result ≡ member_at (model self.now).sets set place };

    ghost lawful: { (x : Self) → Lawful (model x) };
}
