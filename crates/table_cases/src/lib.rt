// Worked examples of the tables that a register is to keep: each can be made, and says what it was told.
#![tactic(auto)]

#[cfg(test)]
mod directories;
#[cfg(test)]
mod reached;
#[cfg(test)]
mod rows;
