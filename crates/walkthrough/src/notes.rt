use answers::Refusal;
use std::io;

// What a shared mark does.
pub const SHARED: &str = "other offices may link to it";

// Notes what was asked of a draft and what it answered; `meaning` says what that does where it is accepted.
pub fn note(
    rt: &HostRuntime,
    asked: &str,
    answer: Result<(), Refusal>,
    meaning: &str,
) -> io::Result<()> {
    match answer {
        Ok(()) => println!(rt; "  {asked}: accepted; {meaning}"),
        Err(refusal) => {
            let number = refusal.number();
            println!(rt; "  {asked}: refused, {number}: {refusal}")
        }
    }
}

// A type of our own with `Display` would be longer than this one choice of a word.
pub fn yes_or_no(answer: bool) -> &'static str {
    if answer { "yes" } else { "no" }
}

// The roles of the records house, in the order of their numbers.
const ROLES: [&str; 5] = ["archivist", "key", "check", "release", "read"];

// By its number, which may be none of theirs: an enum would need a conversion that can fail besides.
pub fn role_name(role: u16) -> &'static str {
    ROLES
        .get(role as usize)
        .copied()
        .unwrap_or("a role that it lacks")
}
