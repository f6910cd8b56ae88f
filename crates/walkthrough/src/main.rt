// Carries a real task through, with a printed note of each thing done.
#![tactic(auto)]

mod bank;
mod houses;
mod notes;
mod questions;
mod records;

use questions::Asker;
use std::io;

fn main(rt: HostRuntime) -> io::Result<()> {
    println!(rt; "A records house drafts its office")?;
    let office = records::records_house(&rt)?;
    println!(rt; "")?;
    println!(rt; "The sealed office is asked")?;
    let asker = Asker {
        rt: &rt,
        office: &office,
    };
    asker.about_roles()?;
    asker.about_sets()?;
    println!(rt; "")?;
    println!(rt; "By which chain one role is over another")?;
    asker.by_which_chain()?;
    println!(rt; "")?;
    println!(rt; "Four houses more draft theirs")?;
    let parish = houses::parish(&rt)?;
    let estate = houses::estate(&rt)?;
    let abbey = houses::abbey(&rt)?;
    let chapel = houses::chapel(&rt)?;
    println!(rt; "")?;
    println!(rt; "The five are joined to a bank, and the bank is asked")?;
    bank::joined_and_asked(&rt, office, parish, estate, abbey, chapel)
}
