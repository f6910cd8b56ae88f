use crate::notes::yes_or_no;
use banks::{Bank, Join, One, RoleAt, code_of, role_at};
use layers::{HouseRules, Withheld};
use list_office::ListOffice;
use matrix_office::MatrixOffice;
use offices::Office;
use std::io;
use tree_office::TreeOffice;

type Estate = Withheld<MatrixOffice>;

type Abbey = Withheld<HouseRules<ListOffice>>;

// Asks a bank, and prints each question with its answer.
#[derive(Drop)]
struct Asker<'a, B: Bank> {
    rt: &'a HostRuntime,
    bank: &'a B,
}

impl<'a, B: Bank> Asker<'a, B> {
    fn about_offices(&self) -> io::Result<()> {
        let count = self.bank.office_count();
        println!(self.rt; "  how many offices? {count}")?;
        for office in 0..6u8 {
            let roles = self.bank.role_count(office);
            let sets = self.bank.set_count(office);
            println!(self.rt; "  office {office}: {roles} roles, {sets} sets")?;
        }
        Ok(())
    }

    // (Office, senior and junior stay three numbers, as the bank's own `is_over` takes them.)
    fn over(&self, office: u8, senior: u8, junior: u8) -> io::Result<()> {
        let answer = yes_or_no(self.bank.is_over(office, senior, junior));
        println!(self.rt; "  in office {office}, is {senior} over {junior}? {answer}")
    }

    fn shared(&self, office: u8, role: u8) -> io::Result<()> {
        let answer = yes_or_no(self.bank.is_shared(office, role));
        println!(self.rt; "  in office {office}, is {role} shared? {answer}")
    }

    fn about_seniority(&self) -> io::Result<()> {
        self.over(1, 0, 2)?;
        self.over(1, 3, 2)?;
        self.over(2, 0, 2)?;
        self.over(4, 0, 0)?;
        self.over(9, 0, 0)?;
        self.shared(1, 0)?;
        self.shared(2, 0)?;
        self.shared(2, 1)?;
        self.shared(3, 2)
    }

    fn about_sets(&self) -> io::Result<()> {
        let bound = self.bank.set_bound(3, 1);
        println!(self.rt; "  in office 3, what is the bound of set 1? {bound}")?;
        print!(self.rt; "  in office 3, what stands at place 1 of set 1? ")?;
        match self.bank.set_member(3, 1, 1) {
            Some(role) => println!(self.rt; "{role}"),
            None => println!(self.rt; "nothing"),
        }
    }

    fn code(&self, office: u8, role: u8) -> io::Result<()> {
        print!(self.rt; "  what is the code of role {role} of office {office}? ")?;
        match code_of(self.bank, office, role) {
            Some(code) => println!(self.rt; "{code}"),
            None => println!(self.rt; "none"),
        }
    }

    fn role(&self, code: u32) -> io::Result<()> {
        print!(self.rt; "  whose code is {code}? ")?;
        match role_at(self.bank, code) {
            Some(RoleAt { office, role }) => println!(self.rt; "role {role} of office {office}"),
            None => println!(self.rt; "nobody's"),
        }
    }

    fn about_codes(&self) -> io::Result<()> {
        self.code(2, 1)?;
        self.role(129)?;
        self.role(131)?;
        self.role(64)?;
        self.role(999999)
    }

    fn about_all(&self) -> io::Result<()> {
        self.about_offices()?;
        self.about_seniority()?;
        self.about_sets()?;
        self.about_codes()
    }
}

// A long bank is joined a few offices at a time, so that each step is proved for whatever bank comes before.
fn with_the_last_two<B: Bank + Drop>(
    rt: &HostRuntime,
    bank: B,
    abbey: Abbey,
    chapel: MatrixOffice,
) -> io::Result<()> {
    let bank = &Join::new(Join::new(bank, abbey), chapel);
    Asker { rt, bank }.about_all()
}

pub fn joined_and_asked(
    rt: &HostRuntime,
    records: ListOffice,
    parish: TreeOffice,
    estate: Estate,
    abbey: Abbey,
    chapel: MatrixOffice,
) -> io::Result<()> {
    let bank = Join::new(Join::new(One::new(records), parish), estate);
    with_the_last_two(rt, bank, abbey, chapel)
}
