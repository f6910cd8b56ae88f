// The answers of a bank's offices, read once into plain tables.
#![tactic(auto)]

pub mod directories;
pub mod directory;
pub mod entries;
pub mod entry;
pub mod marks;
pub mod seniority;
pub mod sets;
pub mod words;

pub use directory::Directory;
