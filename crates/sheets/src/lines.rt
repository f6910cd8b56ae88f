// The lines of a sheet, one after the other.
ghost use Rattle.std.specs.Prelude.{◌≡◌, ◌≢◌, ◌<◌, ◌≤◌, length, HoldsAt};
ghost use Rattle.std.specs.Iterator.{item_count};
ghost use Rattle.std.specs.List.{AllWithin};
ghost use Rattle.sheets.specs.Lines.{lines_of, lines_left, Goes};

// A sheet, and the place where its next line begins: a form that docs/DECISIONS.md fixes.
#[derive(Drop)]
pub struct Lines<'a> {
    sheet: &'a [u8],
    place: usize,
}

impl<'a> Lines<'a> {
    pub fn new(sheet: &'a [u8]) -> Lines<'a>
        ensures start { (result.sheet ≡ sheet.entry) × (result.place ≡ 0) }
        ensures all { lines_left result ≡ lines_of sheet.now }
    {
        Lines { sheet, place: 0 }
    }
}

impl<'a> Iterator for Lines<'a> {
    type Item = &'a [u8];

    ghost next_gives = { Goes };

    ghost remaining = { item_count lines_left };

    // The next line, without the line feed that ends it, or nothing at the end of the sheet.
    #[tactic(auto, using(crate::proofs::Splitting::lines_end, crate::proofs::Splitting::sheet_fed, crate::proofs::Splitting::sheet_last))]
    fn next(&mut self) -> Option<&'a [u8]> {
        let sheet = self.sheet;
        let start = self.place;
        if start >= sheet.len() {
            return None;
        }
        let end = line_end(sheet, start);
        // the last line may lack its line feed
        self.place = if end < sheet.len() { end + 1 } else { end };
        Some(&sheet[start..end])
    }
}

// Where the line that begins at start ends: the place of its line feed, or the end of the sheet.
fn line_end(sheet: &[u8], start: usize) -> usize
    requires { start ≤ length sheet.now }
    ensures within { (start ≤ result) × (result ≤ length sheet.now) }
    ensures feedless { AllWithin (λ b. b ≢ 10) sheet.now start result }
    ensures fed { result < length sheet.now → HoldsAt (λ b. b ≡ 10) sheet.now result }
{
    for end in start..sheet.len() {
        if sheet[end] == b'\n' {
            return end;
        }
    }
    sheet.len()
}
