// Why a line or a call is refused: the numbers of the documents, each by a name, and the place that goes with it.

// A reason's number is that of its variant: `reason as u8`.
#[derive(Clone, Copy, Debug, PartialEq, Eq)]
pub enum Reason {
    // "empty line", at 0
    EmptyLine = 1,
    // "line longer than 4,096 bytes", at 4,096
    LongLine = 2,
    // "a byte outside 32 to 126", at its place
    OutsideByte = 3,
    // not of the order of a line, at the first byte with which no line goes on so
    Order = 4,
    // a pair opened too deep
    Deep = 5,
    // too many of something, or a text that is too long
    TooMany = 6,
    // a number out of range
    OutOfRange = 7,
    // something that is not taken here
    NotTaken = 8,
    // a name of digits only
    DigitsOnly = 9,
    // only INFO in a bracket of unknown position or a labile one
    OnlyInfo = 10,
    // labels that do not fit
    Labels = 11,
    // more floating copies than there may be
    Copies = 12,
    // "a lent area is shorter than its fixed size", at 0
    ShortArea = 13,
    // "tables that no accepted line reads to", at 0
    NoTables = 14,
    // "output shorter than the canonical line", at the length needed
    ShortOutput = 15,
    // a modification without a stated mass: how many have none
    NoMass = 16,
    // no placement, no further one, no such row or bracket, at 0
    NotFound = 17,
    // a placement that is not allowed, at 0
    NotAllowed = 18,
    // a composition that cannot be cut into listed names and counts
    Uncut = 19,
    // only INFO in a declaration
    InfoDeclared = 21,
    // no such entry, at 0
    NoEntry = 22,
    // an entry that is present already, at 0
    Present = 23,
    // fewer free sound blocks than are needed, at 0
    NoRoom = 24,
    // a damaged entry, at 0
    Damaged = 25,
    // an area that is not 1 to 128 whole blocks, at 0
    NotBlocks = 26,
}

// A refusal: why, and the place in the line or the count that its number tells besides; 0 where it tells none.
#[derive(Clone, Copy, Debug, PartialEq, Eq)]
pub struct Refusal {
    pub reason: Reason,
    pub place: usize,
}
