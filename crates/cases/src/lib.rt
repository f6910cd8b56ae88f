// Worked examples: their expected values follow from the rules, by hand.
#![tactic(auto)]

#[cfg(test)]
mod banking;
#[cfg(test)]
mod chains;
mod columns;
#[cfg(test)]
mod kinds;
mod table;

pub use columns::Columns;
