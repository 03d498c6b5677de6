// The refusals by name, and a line of an entry point's table.
#![tactic(auto)]

ghost use Rattle.std.specs.Prelude.{cond, ◌≡◌, Ok, Err};
ghost use Rattle.answers.specs.Told.{number_of_refusal, told};

// Why an entry point refuses, as the documents number it: 1 to 11 are document 01's, the rest document 02's, of which
// 16 and 17 are for sealing in bursts, which nothing does yet. Numbers without a gap cost the archive no table, so 106,
// which is no document's, stands where it is answered: `drawer_file::Damaged`.
#[derive(Clone, Copy, Debug, PartialEq, Eq)]
pub enum Refusal {
    KeyLength = 1,
    NonceLength = 2,
    DataLength = 3,
    TextLength = 4,
    TagLength = 5,
    RoomLength = 6,
    WrongTag = 7,
    StreamTooLong = 8,
    DrawerSpent = 9,
    BookForm = 10,
    ClassMissing = 11,
    CutShort = 12,
    CountOrLength = 13,
    BadShuffle = 14,
    LeftOver = 15,
    MoreThanDeclared = 16,
    OutOfTurn = 17,
    BatchForm = 18,
}

impl Refusal {
    // The number, as C has it.
    pub fn number(self) -> u32
        ensures { result ≡ number_of_refusal self }
    {
        self as u32
    }
}

// A line of the table: refused, if it applies.
pub fn refuse(applies: bool, why: Refusal) -> Result<(), Refusal>
    ensures { result ≡ cond applies (Err why) (Ok tt) }
{
    if applies { Err(why) } else { Ok(()) }
}

// The number of an answer, as C has it: 0, or that of the refusal.
pub fn told<T>(answer: &Result<T, Refusal>) -> u32
    ensures { result ≡ told answer.now }
{
    match answer {
        Ok(_) => 0,
        Err(why) => why.number(),
    }
}
