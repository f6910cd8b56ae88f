// What the examples share.
use answers::Refusal;
use sheets::{Token, read_line, write_line};
use std::process::Abort;
use std::test::Fail;

// The line reads as the token, and is what is written for it.
pub fn reads(rt: &impl Abort, line: &[u8], token: Token<'_>) -> Result<(), Fail> {
    assert_eq!(rt; read_line(line)?, token);
    let mut again = [b'?'; 20];
    write_line(token, &mut again)?;
    assert_eq!(rt; &again[..], line);
    Ok(())
}

// It is refused by this number, and the line, all question marks, is as it was.
pub fn unwritten(
    rt: &impl Abort,
    answer: Result<(), Refusal>,
    line: &[u8],
    number: u8,
) -> Result<(), Fail> {
    match answer {
        Ok(()) => Err(Fail::new("it is written")),
        Err(refusal) => {
            assert_eq!(rt; refusal.number(), number);
            assert!(rt; line.iter().all(|byte| *byte == b'?'));
            Ok(())
        }
    }
}

// The line is refused by this number, with this column.
pub fn faulty(rt: &impl Abort, line: &[u8], number: u8, column: u8) -> Result<(), Fail> {
    match read_line(line) {
        Ok(_) => Err(Fail::new("it reads")),
        Err(fault) => {
            assert_eq!(rt;
                (Refusal::from(fault).number(), fault.column()),
                (number, column)
            );
            Ok(())
        },
    }
}
