// The types of the calls, and 01's number for each refusal. What each call promises stands in specs/, the theorems about it in proofs/.
#![tactic(auto)]

ghost use Rattle.std.specs.Prelude.{◌≡◌};
ghost use Rattle.promise.specs.Refusals.{numbered};

// The fields of a job, as refusal 4 counts them.
#[derive(Clone, Copy)]
pub enum Field {
    Number = 1,
    Work = 2,
    Deadline = 3,
    Bound = 4,
}

// Why a call says no: a row of 01's refusal table.
#[derive(Clone, Copy)]
pub enum Refusal {
    MachineCount,
    ListLength,
    ManyRows,
    BadField { row: u32, field: Field },
    SeenNumber { row: u32 },
    ShortBuffer,
    NoFit { boundary: u32, shortage: u32 },
    FullDesk,
    FarBoundary,
    NotHeld,
    ClockAtEnd,
    NotSound,
    BadLine { line: u32 },
    LongFile,
}

// An answer as 01 numbers it: its number (0 for yes), place and amount. The statements speak of it; the code answers a `Result`.
#[derive(Clone, Copy)]
pub struct Answer {
    pub number: u32,
    pub place: u32,
    pub amount: u32,
}

impl From<Refusal> for Answer {
    ghost from_gives = { λ refusal a. a ≡ numbered refusal };

    fn from(refusal: Refusal) -> Answer {
        let (number, place, amount) = match refusal {
            Refusal::MachineCount => (1, 0, 0),
            Refusal::ListLength => (2, 0, 0),
            Refusal::ManyRows => (3, 0, 0),
            Refusal::BadField { row, field } => (4, row, field as u32),
            Refusal::SeenNumber { row } => (5, row, 0),
            Refusal::ShortBuffer => (6, 0, 0),
            Refusal::NoFit { boundary, shortage } => (7, boundary, shortage),
            Refusal::FullDesk => (8, 0, 0),
            Refusal::FarBoundary => (9, 0, 0),
            Refusal::NotHeld => (10, 0, 0),
            Refusal::ClockAtEnd => (11, 0, 0),
            Refusal::NotSound => (12, 0, 0),
            Refusal::BadLine { line } => (13, line, 0),
            Refusal::LongFile => (14, 0, 0),
        };
        Answer {
            number,
            place,
            amount,
        }
    }
}

// A held job, in its seat of the desk's table; an unused seat is all zeros.
#[derive(Clone, Copy, PartialEq, Eq, Default)]
pub struct Held {
    pub number: u32,
    pub work: u32,
    pub left: u32,
    pub deadline: u32,
    pub bound: u32,
    pub slots: u32,
}

#[derive(Clone, Copy)]
pub struct Desk {
    pub machines: u32,
    pub clock: u32,
    pub seats: [Held; 32],
}

// What a desk call comes to: its figures or a refusal, and the desk that it hands back.
#[derive(Clone, Copy)]
pub struct Outcome<T> {
    pub answer: Result<T, Refusal>,
    pub desk: Desk,
}

// What Look tells of a held job.
#[derive(Clone, Copy)]
pub struct Figures {
    pub left: u32,
    pub deadline: u32,
    pub bound: u32,
    pub leeway: u32,
}

// The machines given to a job number in a slot.
#[derive(Clone, Copy, Default)]
pub struct Given {
    pub number: u32,
    pub machines: u32,
}

// The lines of a job file: the first, then these five for each job.
#[derive(Clone, Copy)]
pub enum LineKind {
    MachinesLine,
    JobLine,
    WorkLine,
    DeadlineLine,
    BoundLine,
    LabelLine,
}

// What a job file says: the machine count, the number of groups, the rows of the first 32 (01: "in 128 numbers").
#[derive(Drop)]
pub struct JobFile {
    pub machines: u32,
    pub groups: u32,
    pub rows: [u32; 128],
}

// A printed text: its bytes, zeros after them, and how many there are. A `String` allocates, and `plan_text` cannot fail.
#[derive(Drop)]
pub struct Text {
    pub bytes: [u8; 40960],
    pub len: usize,
}
