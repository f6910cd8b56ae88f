// Worked examples of sheets, lines and columns.
#![tactic(auto)]

#[cfg(test)]
mod fields;
#[cfg(test)]
mod printing;
#[cfg(test)]
mod rows;
#[cfg(test)]
mod shared;
#[cfg(test)]
mod sheet;
#[cfg(test)]
mod words;
#[cfg(test)]
mod writing;
