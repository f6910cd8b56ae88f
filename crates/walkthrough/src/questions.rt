use crate::notes::{role_name, yes_or_no};
use list_office::ListOffice;
use offices::Office;
use search::{Outcome, best_chain};
use std::io;

// Asks an office, and prints each question with its answer.
#[derive(Drop)]
pub struct Asker<'a> {
    pub rt: &'a HostRuntime,
    pub office: &'a ListOffice,
}

impl<'a> Asker<'a> {
    // (Senior and junior stay two numbers, as the office's own `is_over` takes them.)
    fn over(&self, senior: u8, junior: u8) -> io::Result<()> {
        let first = role_name(u16::from(senior));
        let second = role_name(u16::from(junior));
        let answer = yes_or_no(self.office.is_over(senior, junior));
        println!(self.rt; "  is {first} over {second}? {answer}")
    }

    fn shared(&self, role: u8) -> io::Result<()> {
        let name = role_name(u16::from(role));
        let answer = yes_or_no(self.office.is_shared(role));
        println!(self.rt; "  is {name} shared? {answer}")
    }

    pub fn about_roles(&self) -> io::Result<()> {
        let count = self.office.role_count();
        println!(self.rt; "  how many roles? {count}")?;
        self.over(0, 4)?;
        self.over(1, 1)?;
        self.over(1, 2)?;
        self.over(4, 0)?;
        self.over(0, 200)?;
        for role in 0..6u8 {
            self.shared(role)?;
        }
        Ok(())
    }

    fn member(&self, set: u8, place: u8) -> io::Result<()> {
        let role = self.office.set_member(set, place);
        let name = role.map_or("nothing", |role| role_name(u16::from(role)));
        println!(self.rt; "  what stands at place {place} of set {set}? {name}")
    }

    pub fn about_sets(&self) -> io::Result<()> {
        let count = self.office.set_count();
        println!(self.rt; "  how many exclusive sets? {count}")?;
        for set in 0..3u8 {
            let bound = self.office.set_bound(set);
            println!(self.rt; "  what is the bound of set {set}? {bound}")?;
        }
        for place in 0..4u8 {
            self.member(1, place)?;
        }
        self.member(2, 0)
    }

    fn chain(&self, senior: u8, junior: u8) -> io::Result<()> {
        let mut starts = [false; 64];
        if senior < 64 {
            starts[senior as usize] = true;
        }
        let mut near = [None; 64];
        let mut home = [None; 64];
        let mut strip = [0; 64];
        let first = role_name(u16::from(senior));
        let second = role_name(u16::from(junior));
        let Ok(Outcome { len, looked }) = best_chain(
            self.office,
            &starts,
            junior as usize,
            &mut near,
            &mut home,
            &mut strip,
        ) else {
            return println!(self.rt; "  from {first} to {second}: there is no such role");
        };
        match len {
            Some(len) => {
                print!(self.rt;
                    "  from {first} to {second}: a chain of length {len}, after a look at {looked}:"
                )?;
                self.written(&strip, len)
            }
            None => println!(self.rt;
                "  from {first} to {second}: no chain, after a look at {looked}"
            ),
        }
    }

    // The roles in the first `len` places of a strip.
    fn written(&self, strip: &[u16], len: usize) -> io::Result<()> {
        for node in strip.iter().take(len) {
            let name = role_name(*node);
            print!(self.rt; " {name}")?;
        }
        println!(self.rt; "")
    }

    pub fn by_which_chain(&self) -> io::Result<()> {
        self.chain(0, 4)?;
        self.chain(2, 2)?;
        self.chain(1, 3)?;
        self.chain(0, 77)
    }
}
