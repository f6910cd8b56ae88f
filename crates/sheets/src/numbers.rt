// Numbers in six columns. (Not by `parse` and `{:>6}`: `parse` takes a sign and leading zeros too, and both say nothing of
// the digits that a clause could name.)
ghost use Rattle.std.specs.Prelude.{◌≡◌, ◌<◌, MatchResult};
ghost use Rattle.answers.specs.declared.Refusal.TheVariants.{BadField};
ghost use Rattle.sheets.specs.Columns.{column_byte, six, counts, Holds, ReadsNumber};

use answers::Refusal;

// The largest number that six columns hold.
const LARGEST: u32 = 999_999;

// The byte of the column that counts `power`s: a space where the number has no digit there.
fn column_of(number: u32, power: u32) -> u8
    requires { 0 < power }
    ensures { result ≡ column_byte power number }
{
    if number < power {
        b' '
    } else {
        b'0' + (number / power % 10) as u8
    }
}

// The number right-justified in six columns, without leading zeros.
pub fn six_columns(number: u32) -> [u8; 6]
    ensures { result ≡ six number }
{
    // no `map` over the powers: the last column stands apart, since it shows a 0
    [
        column_of(number, 100_000),
        column_of(number, 10_000),
        column_of(number, 1_000),
        column_of(number, 100),
        column_of(number, 10),
        b'0' + (number % 10) as u8,
    ]
}

// The field of a number that six columns hold.
pub fn field_of(number: u32) -> Result<[u8; 6], Refusal>
    ensures { MatchResult result (λ field. Holds field number) (λ refusal. (999999 < number) × (refusal ≡ BadField)) }
{
    if number > LARGEST {
        return Err(Refusal::BadField);
    }
    Ok(six_columns(number))
}

// What a byte counts in its column: its digit, and nothing if it is none.
fn count_of(byte: u8) -> u32
    ensures is { result ≡ counts byte }
    ensures small { result < 10 }
{
    match byte {
        b'0'..=b'9' => (byte - b'0') as u32,
        _ => 0,
    }
}

// The number that the six columns of a field hold.
pub fn read_number(field: &[u8]) -> Option<u32>
    ensures { ReadsNumber field.now result }
{
    if field.len() != 6 {
        return None;
    }
    // no `fold`: that the number fits follows from how many bytes were read
    let mut number = 0;
    for byte in field {
        number = number * 10 + count_of(*byte);
    }
    // leading zeros, stray bytes and numbers on the left are not what the number is written as
    if six_columns(number).as_slice() == field {
        Some(number)
    } else {
        None
    }
}
