// Why a call is refused. Each has a number, by its name in include/perillahinge.h; 0 is no refusal.
ghost use Rattle.std.specs.Prelude.{◌≡◌};
ghost use Rattle.config.specs.Numbers.{number_of, at_no_line};

#[derive(Clone, Copy, PartialEq, Eq)]
pub enum Refusal {
    // The size is not 1 to 64.
    Size = 1,
    // The seed is above 10,000,000.
    Seed = 2,
    // The sea level is not -4,096 to 4,096.
    SeaLevel = 3,
    // The world height is not 2 to 4,096.
    WorldHeight = 4,
    // A cell of the chunk would lie beyond a million.
    Place = 5,
    // The cells, or what replaces them or takes the border, have a wrong length.
    Length = 6,
    // The cell lies outside the chunk.
    Outside = 7,
    // A session's batch has more than 16 whole groups.
    ManyGroups = 8,
    // The journal is over 32,768 bytes long, or shorter than the bytes that are held.
    JournalLength = 9,
    // The held bytes have no whole line.
    NoLine = 10,
    // The first line is not of its form.
    FirstLine = 11,
    // A later line is malformed, or not allowed there.
    LaterLine = 12,
    // The tally's lists are shorter than the ids present.
    TallyLists = 13,
    // The record is invalid, or the count does not belong to these cells.
    Record = 21,
    // The used bytes are not this record's journal.
    UsedBytes = 22,
    // Nothing is active that an undo could take back.
    NothingActive = 23,
    // There is no space for the line, or 256 edits are active.
    Full = 24,
    // The name is not 1 to 16 of a to z and 0 to 9.
    Name = 25,
    // No checkpoint has the name.
    UnknownName = 26,
    // The name would be a seventeenth.
    ManyNames = 27,
    // No planes are made of a chunk of this size: it is not 1, 2, 4, 8, 16, 32 or 64.
    PlanesSize = 28,
    // The planes' bytes are not twice as many as the cells.
    PlanesBytes = 29,
    // The number names no face: of the C interface alone.
    Face = 99,
}

impl Refusal {
    // The number, for the C interface and a program's line.
    pub fn number(self) -> u32
        ensures { result ≡ number_of self }
    {
        self as u32
    }
}

// A refusal and the journal's line that it is about: 0 where it is about none.
#[derive(Clone, Copy)]
pub struct Refused {
    pub refusal: Refusal,
    pub line: usize,
}

impl From<Refusal> for Refused {
    ghost from_gives = { λ refusal refused. refused ≡ at_no_line refusal };

    fn from(refusal: Refusal) -> Refused {
        Refused { refusal, line: 0 }
    }
}
