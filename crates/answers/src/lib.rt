// What the calls answer: Ok with what was done, or a refusal. The documents' numbers stand in specs/Numbers.antt and,
// for the running program, in the codes of `Kind` and in the conversion to `Answered`: nowhere else in the library.
#![tactic(auto)]

ghost use Rattle.std.specs.Prelude.{◌≡◌};
ghost use Rattle.answers.specs.Numbers.{code_of, numbers, says};
ghost use Rattle.answers.specs.Refusals.{fault};

// The kinds of faults, with their codes.
#[derive(Clone, Copy, Debug, PartialEq, Eq)]
pub enum Kind {
    Overlap = 11,
    Gap = 12,
    Outside = 13,
    Cycle = 14,
    Late = 15,
    Dangling = 16,
    Double = 17,
}

// A fault at an instant: its kind, and its place, a node or a reference row.
#[derive(Clone, Copy, Debug, PartialEq, Eq)]
pub struct Fault {
    pub kind: Kind,
    pub place: u32,
}

// Why a call did nothing. An instant stands before a place. A place may be a table: 0, 1 or 2, as the documents say.
#[derive(Clone, Copy, Debug, PartialEq, Eq)]
pub enum Refusal {
    Size(u32),
    Start,
    Node(u32),
    Edge(u32),
    Reference(u32),
    Faulty(u32, Fault),
    Room(u32, u32),
    Tie(u32, u32),
    Early(u32),
    Text(u32),
    TextRoom(u32),
}

// What a call says that did what it is for.
#[derive(Clone, Copy, Debug, PartialEq, Eq)]
pub struct Outcome {
    pub instant: u32,
    pub place: u32,
}

pub type Answer = Result<Outcome, Refusal>;

// Nothing to say but that it was done: an accepted history. What judges a step answers this too, and not (), since
// `history_says`, `faults_say` and `Gives` have `passed` among their answers.
pub const PASSED: Outcome = Outcome {
    instant: 0,
    place: 0,
};

// An answer in the documents' numbers.
#[repr(C)]
#[derive(Clone, Copy, Debug, PartialEq, Eq)]
pub struct Answered {
    pub code: u32,
    pub instant: u32,
    pub place: u32,
}

impl Kind {
    pub fn code(self) -> u32
        ensures { result ≡ code_of self }
    {
        self as u32
    }
}

impl Fault {
    // Two parts are no conversion: a constructor is the plainest.
    pub fn of(kind: Kind, place: u32) -> Fault
        ensures { result ≡ fault kind place }
    {
        Fault { kind, place }
    }

    // The code of its kind: a conversion to a number would not say that it is the code.
    pub fn code(self) -> u32
        ensures { result ≡ code_of self.kind }
    {
        self.kind.code()
    }
}

impl Answered {
    pub fn new(code: u32, instant: u32, place: u32) -> Answered
        ensures { says result.code result.instant result.place ≡ says code instant place }
    {
        Answered {
            code,
            instant,
            place,
        }
    }
}

impl From<Answer> for Answered {
    ghost from_gives = { λ a r. says r.code r.instant r.place ≡ numbers a };

    fn from(answer: Answer) -> Answered {
        match answer {
            Ok(done) => Answered::new(0, done.instant, done.place),
            Err(Refusal::Size(place)) => Answered::new(1, 0, place),
            Err(Refusal::Start) => Answered::new(2, 0, 0),
            Err(Refusal::Node(place)) => Answered::new(3, 0, place),
            Err(Refusal::Edge(place)) => Answered::new(4, 0, place),
            Err(Refusal::Reference(place)) => Answered::new(5, 0, place),
            Err(Refusal::Faulty(instant, f)) => Answered::new(f.code(), instant, f.place),
            Err(Refusal::Room(instant, place)) => Answered::new(21, instant, place),
            Err(Refusal::Tie(instant, place)) => Answered::new(22, instant, place),
            Err(Refusal::Early(instant)) => Answered::new(23, instant, 0),
            Err(Refusal::Text(place)) => Answered::new(31, 0, place),
            Err(Refusal::TextRoom(place)) => Answered::new(32, 0, place),
        }
    }
}
