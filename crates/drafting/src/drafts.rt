ghost use Rattle.std.specs.Prelude.{◌≡◌, []};
ghost use Rattle.drafting.specs.Models.{drafted_as};
ghost use Rattle.drafting.specs.Pairing.{pair_answered, PairKept};
ghost use Rattle.offices.specs.Drafting.{Drafted, Keeps, pair, share, exclude, after_pair, mark_answer, after_mark, set_answer, after_set};

use crate::draft::Draft;
use crate::sealed::Sealed;
use crate::seniority::Seniority;
use answers::Refusal;
use offices::OfficeBase;

impl<S: Seniority> Draft<S> {
    // Each role over itself alone, nothing shared and no set; more than 64 roles are 64.
    pub fn new(roles: u8) -> Draft<S>
        ensures office { Drafted roles [] (drafted_as S.over result) }
        ensures kind { S.blank result.office.seniority }
    {
        Draft {
            office: Sealed {
                base: OfficeBase::new(roles),
                seniority: S::alone(),
            },
        }
    }

    // Puts the senior over the junior, with all that follows. A pair that follows already is not stored.
    pub fn pair(&mut self, senior: u8, junior: u8) -> Result<(), Refusal>
        ensures answer { result ≡ pair_answered S.over S.own self.old senior junior }
        ensures after { drafted_as S.over self.new ≡ after_pair result (drafted_as S.over self.old) senior junior }
        ensures kind { PairKept S.over S.stored self.old senior junior result self.new }
        ensures history { Keeps (drafted_as S.over self.old) (pair senior junior) result (drafted_as S.over self.new) }
    {
        let roles = self.office.base.role_count();
        if senior >= roles || junior >= roles {
            return Err(Refusal::NoSuchRole);
        }
        if senior == junior {
            return Err(Refusal::Circular);
        }
        if self.office.seniority.is_over(senior, junior) {
            return Ok(());
        }
        self.office.seniority.keep(senior, junior)
    }

    // Marks a role as shared.
    pub fn share(&mut self, role: u8) -> Result<(), Refusal>
        ensures answer { result ≡ mark_answer (drafted_as S.over self.old).roles role }
        ensures after { drafted_as S.over self.new ≡ after_mark result (drafted_as S.over self.old) role }
        ensures kind { self.new.office.seniority ≡ self.old.office.seniority }
        ensures history { Keeps (drafted_as S.over self.old) (share role) result (drafted_as S.over self.new) }
    {
        self.office.base.share(role)
    }

    // Adds an exclusive set.
    pub fn exclude(&mut self, members: &[u8], bound: u8) -> Result<(), Refusal>
        ensures answer { let m = drafted_as S.over self.old in result ≡ set_answer m.roles m.sets members.now bound }
        ensures after { drafted_as S.over self.new ≡ after_set result (drafted_as S.over self.old) members.now bound }
        ensures kind { self.new.office.seniority ≡ self.old.office.seniority }
        ensures history { Keeps (drafted_as S.over self.old) (exclude members.now bound) result (drafted_as S.over self.new) }
    {
        self.office.base.exclude(members, bound)
    }

    // Ends the drafting: the sealed office is the one drafted, and takes no more calls.
    pub fn seal(self) -> Sealed<S>
        ensures { result ≡ self.office }
    {
        let Draft { office } = self;
        office
    }
}
