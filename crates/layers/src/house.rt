ghost use Rattle.std.specs.Prelude.{◌≡◌, ◌+◌, ◌≤◌, length};
ghost use Rattle.layers.specs.Answering.{Answers};
ghost use Rattle.layers.specs.Shown.{housed_as};
ghost use Rattle.offices.specs.Drafting.{set_answer, after_set};
ghost use Rattle.offices.specs.Bases.{table_roles, table_sets};
ghost use Rattle.offices.proofs.Lawfulness.{table_shaped};
ghost use Rattle.layers.specs.HouseSets.{house_lawful};

use crate::draft::LayerDraft;
use answers::Refusal;
use offices::{Office, SetTable};

// A sealed layer that adds house rules: exclusive sets after those of the office below. An own set counts as
// far as it fits the answers from below.
#[derive(Drop)]
pub struct HouseRules<O: Office> {
    pub(crate) below: O,
    pub(crate) own: SetTable,
}

// House rules under drafting.
pub type HouseDraft<O> = LayerDraft<HouseRules<O>>;

// Who answers for a set: the office below, the own table at a place, or nobody. (As an `Option` of a place it takes a quarter
// to a third longer to ask.)
#[derive(Clone, Copy)]
pub(crate) enum Answerer {
    Lower,
    Own(u8),
    Nobody,
}

impl<O: Office> LayerDraft<HouseRules<O>> {
    // No house rule yet.
    pub fn new(below: O) -> HouseDraft<O>
        ensures model { housed_as O.model result.layer ≡ O.model below }
        ensures below { result.layer.below ≡ below }
    {
        let own = SetTable::new(below.role_count());
        LayerDraft {
            layer: HouseRules { below, own },
        }
    }

    // Adds an exclusive set; those below count toward the 8.
    pub fn exclude(&mut self, members: &[u8], bound: u8) -> Result<(), Refusal>
        ensures answer { let m = housed_as O.model self.old.layer in result ≡ set_answer m.roles m.sets members.now bound }
        ensures after { housed_as O.model self.new.layer ≡ after_set result (housed_as O.model self.old.layer) members.now bound }
        ensures below { self.new.layer.below ≡ self.old.layer.below }
    {
        if self.layer.fit() >= 8 {
            return Err(Refusal::SetsFull);
        }
        self.layer.own.add(members, bound)
    }
}

impl<O: Office> HouseRules<O> {
    // Lets go of the own sets that do not count, so that each that is left does, and says how many sets there are.
    fn fit(&mut self) -> u8
        ensures model { housed_as O.model self.new ≡ housed_as O.model self.old }
        ensures below { self.new.below ≡ self.old.below }
        ensures roles { self.new.own.roles ≡ (O.model self.old.below).roles }
        ensures count { result ≡ length (O.model self.old.below).sets + length (table_sets self.new.own) }
        ensures room { result ≤ 8 }
    {
        let lower = self.below.set_count();
        self.own.fit(self.below.role_count(), 8 - lower);
        lower + self.own.len()
    }

    fn answerer(&self, set: u8) -> Answerer
        ensures { Answers result (O.model self.now.below) self.now.own set }
    {
        let lower = self.below.set_count();
        if set < lower {
            Answerer::Lower
        } else if set >= 8 {
            Answerer::Nobody
        } else if self.own.roles() > self.below.role_count() {
            Answerer::Nobody
        } else {
            Answerer::Own(set - lower)
        }
    }
}

impl<O: Office> Office for HouseRules<O> {
    ghost model = { housed_as O.model };

    ghost lawful = { λ x.
        let t = x.own in
        house_lawful (O.model x.below) (table_roles t) (table_sets t) (O.lawful x.below) (table_shaped t) };

    fn role_count(&self) -> u8 {
        self.below.role_count()
    }

    fn is_over(&self, senior: u8, junior: u8) -> bool {
        self.below.is_over(senior, junior)
    }

    fn is_shared(&self, role: u8) -> bool {
        self.below.is_shared(role)
    }

    fn set_count(&self) -> u8 {
        let lower = self.below.set_count();
        if self.own.roles() > self.below.role_count() {
            return lower;
        }
        lower.saturating_add(self.own.len()).min(8)
    }

    fn set_bound(&self, set: u8) -> u8 {
        match self.answerer(set) {
            Answerer::Lower => self.below.set_bound(set),
            Answerer::Own(at) => self.own.bound(at),
            Answerer::Nobody => 0,
        }
    }

    fn set_member(&self, set: u8, place: u8) -> Option<u8> {
        match self.answerer(set) {
            Answerer::Lower => self.below.set_member(set, place),
            Answerer::Own(at) => self.own.member(at, place),
            Answerer::Nobody => None,
        }
    }
}
