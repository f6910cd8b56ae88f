ghost use Rattle.std.specs.Prelude.{◌≡◌, not};
ghost use Rattle.layers.specs.Layers.{after_withhold};
ghost use Rattle.layers.specs.Shown.{withheld_as};
ghost use Rattle.offices.specs.Drafting.{mark_answer};
ghost use Rattle.offices.specs.Members.{holds};
ghost use Rattle.std.proofs.lemmas.Bool.{and_parts};

use crate::draft::LayerDraft;
use answers::Refusal;
use offices::{Office, RoleSet};

// A sealed layer that takes the shared mark off some roles of the office below.
#[derive(Drop)]
pub struct Withheld<O: Office> {
    pub(crate) below: O,
    pub(crate) withheld: RoleSet,
}

// Withholding under drafting.
pub type WithheldDraft<O> = LayerDraft<Withheld<O>>;

impl<O: Office> LayerDraft<Withheld<O>> {
    // Nothing is withheld yet.
    pub fn new(below: O) -> WithheldDraft<O>
        ensures model { withheld_as O.model result.layer ≡ O.model below }
        ensures below { result.layer.below ≡ below }
    {
        LayerDraft {
            layer: Withheld {
                below,
                withheld: RoleSet::empty(),
            },
        }
    }

    // Takes the shared mark off a role.
    pub fn withhold(&mut self, role: u8) -> Result<(), Refusal>
        ensures answer { result ≡ mark_answer (O.model self.old.layer.below).roles role }
        ensures after { withheld_as O.model self.new.layer ≡ after_withhold result (withheld_as O.model self.old.layer) role }
        ensures below { self.new.layer.below ≡ self.old.layer.below }
    {
        if role >= self.layer.below.role_count() {
            return Err(Refusal::NoSuchRole);
        }
        self.layer.withheld = self.layer.withheld.with(role);
        Ok(())
    }
}

impl<O: Office> Office for Withheld<O> {
    ghost model = { withheld_as O.model };

    ghost lawful = { λ x.
        let l = O.lawful x.below in
        record {
          few = l.few;
          order = l.order;
          marks = λ a h. l.marks a (and_parts ((O.model x.below).shared a) (not (holds x.withheld a)) h).0;
          eight = l.eight;
          shaped = l.shaped;
        } };

    fn role_count(&self) -> u8 {
        self.below.role_count()
    }

    fn is_over(&self, senior: u8, junior: u8) -> bool {
        self.below.is_over(senior, junior)
    }

    fn is_shared(&self, role: u8) -> bool {
        self.below.is_shared(role) && !self.withheld.contains(role)
    }

    fn set_count(&self) -> u8 {
        self.below.set_count()
    }

    fn set_bound(&self, set: u8) -> u8 {
        self.below.set_bound(set)
    }

    fn set_member(&self, set: u8, place: u8) -> Option<u8> {
        self.below.set_member(set, place)
    }
}
