// The definitions and laws that every crate cites: lists of bytes, numbers as bytes, bits, scans. They stand in specs/ and proofs/.
// Here are the refusals, as a call answers them and as C is given them. No public function has a `requires`.
#![tactic(auto)]

ghost use Rattle.std.specs.Prelude.{◌≡◌};
ghost use Rattle.laws.specs.Refusal.{number, refused_with, given, given_done};

// What a call is refused for: 01 "What is refused", and 02. Each has the paper's number.
#[derive(Clone, Copy, PartialEq, Eq, Debug)]
pub enum Refusal {
    // n, T or L outside the limits
    OutsideLimits = 1,
    // a lent length differs from the rule
    OtherLength = 2,
    // opening, image writing: memory not true
    NotTrue = 3,
    // state broken
    BrokenState = 4,
    // tracker number T or more
    NoTracker = 5,
    // group 16n or more; leaf n or more
    NoGroup = 6,
    // issue to a busy tracker; drain or show with any busy
    BusyTracker = 7,
    // step of an idle tracker
    IdleTracker = 8,
    // image does not fit the lent output
    NoRoom = 9,
    // image length 0 or not a multiple of 512, or a wrong check
    WrongCheck = 10,
    // checks right, another image rule broken
    OtherRule = 11,
    // script line not of the form
    OtherForm = 12,
    // 02, E3: another busy tracker has the group, and one of the two writes it
    SharedGroup = 13,
    // 02, E13: c is not the length of a run
    OtherRun = 15,
}

// "4,294,967,296 plus the refusal"
pub const REFUSED: u64 = 4294967296;

impl From<Refusal> for u8 {
    ghost from_gives = { λ r c. c ≡ number r };

    fn from(r: Refusal) -> u8 {
        r as u8
    }
}

// What C is given: the value, or 4,294,967,296 plus the refusal.
pub fn given(told: Result<u64, Refusal>) -> u64
    ensures { result ≡ given told }
{
    match told {
        Ok(v) => v,
        Err(r) => REFUSED + r as u64,
    }
}

// What C is given of a call that has no value: 0, or 4,294,967,296 plus the refusal.
pub fn given_done(told: Result<(), Refusal>) -> u64
    ensures { result ≡ given_done told }
{
    given(told.and(Ok(0)))
}

// The number of what is refused; 0 where nothing is.
pub fn refused_with(told: Result<(), Refusal>) -> u64
    ensures { result ≡ refused_with told }
{
    told.err().map_or(0, |r| r as u64)
}
