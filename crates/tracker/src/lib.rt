// 01 "One step of a tracker": a tracker's phase and fields, and what a call answers.
// Structs and enums by value; no public function has a `requires`.
#![tactic(auto)]

ghost use Rattle.std.specs.Prelude.{◌≡◌, ◌+◌, min};
ghost use Rattle.tracker.specs.Tracker.{idle, level_of, asks_at, keeps_at, first_phase, after_probe, read_of, write_of, issued, at, goes_to, counted, tick, is_idle};
ghost use Rattle.tracker.specs.Transfers.{none, most_transfers, plus};
ghost use Rattle.laws.specs.Choice.{pick};

// Where a tracker stands. Probe and Under are of a level: on 01's device Under(0) is its Leaf, and Top its Map. Finish is two, Set and Clear, by what it
// does to the bit over a block of a level.
#[derive(Clone, Copy, PartialEq, Eq, Default)]
pub enum Phase {
    #[default]
    Idle,
    Probe(u8),
    Top,
    Under(u8),
    Set(u8),
    Clear(u8),
}

impl Phase {
    // The level that the phase is of.
    pub fn level(self) -> u8
        ensures { result ≡ level_of self }
    {
        match self {
            Phase::Idle | Phase::Top => 0,
            Phase::Probe(d) | Phase::Under(d) | Phase::Set(d) | Phase::Clear(d) => d,
        }
    }

    // The block of level e, 1 and up, must be in a line.
    #[tactic(auto, unfolding(crate::specs::Tracker::asks_at, laws::specs::Choice::both))]
    pub fn asks_at(self, e: u8) -> bool
        ensures { result ≡ asks_at self e }
    {
        match self {
            Phase::Idle | Phase::Probe(_) | Phase::Top => false,
            Phase::Under(d) | Phase::Set(d) | Phase::Clear(d) => d < e,
        }
    }

    // The line of the block of level e, 1 and up, is not replaced.
    #[tactic(auto, unfolding(crate::specs::Tracker::keeps_at, laws::specs::Choice::both))]
    pub fn keeps_at(self, e: u8) -> bool
        ensures { result ≡ keeps_at self e }
    {
        match self {
            Phase::Idle | Phase::Probe(_) | Phase::Top => false,
            Phase::Under(d) => d < e,
            Phase::Set(_) | Phase::Clear(_) => 0 < e,
        }
    }

    // After Probe of level d: Probe of the level above it where that is below the top, else Top.
    pub fn after_probe(top: u8, d: u8) -> Phase
        ensures { result ≡ after_probe top d }
    {
        if d < top && d + 1 < top {
            Phase::Probe(d + 1)
        } else {
            Phase::Top
        }
    }
}

// A read, or a write of a value, of a group, top-down or bottom-up. The value of a read means nothing.
#[derive(Clone, Copy)]
pub struct Access {
    pub write: bool,
    pub bottom: bool,
    pub group: u32,
    pub value: u32,
}

// Blocks fetched from memory and blocks written back to it.
#[derive(Clone, Copy, Default)]
pub struct Transfers {
    pub fetched: u8,
    pub back: u8,
}

// One access under way, with what its steps have transferred; `bottom` stays after Probe. An idle tracker that ended has every field zero.
#[derive(Clone, Copy, Default)]
pub struct Tracker {
    pub phase: Phase,
    pub write: bool,
    pub bottom: bool,
    pub group: u32,
    pub value: u32,
    pub turns: u16,
    pub transfers: Transfers,
}

// What a call answers. `Read` carries the group and the turns, `Done` and `Same` the turns, `No` the refusal.
// Kept: `No` carries a number: text's `put_line` and coding's `put_said` promise for every number what they put (`Text.said_text`, `Answer.said_coded`).
#[derive(Clone, Copy)]
pub enum Answer {
    Accepted,
    Wait,
    Moved,
    Read(u32, u16),
    Done(u16),
    Same(u16),
    No(u8),
}

// One turn more; it stays at 65,535 once there.
pub fn one_more(turns: u16) -> u16
    ensures { result ≡ tick turns }
{
    turns.saturating_add(1)
}

impl Transfers {
    // No transfer.
    pub fn none() -> Transfers
        ensures { result ≡ none }
    {
        Transfers::default()
    }

    // Those of both; each sum stays at 255 once there.
    pub fn plus(self, more: Transfers) -> Transfers
        ensures { result ≡ plus self more }
    {
        Transfers {
            fetched: self.fetched.saturating_add(more.fetched),
            back: self.back.saturating_add(more.back),
        }
    }
}

impl Access {
    // A read of group g.
    pub fn read_of(bottom: bool, g: u32) -> Access
        ensures { result ≡ read_of bottom g }
    {
        Access {
            write: false,
            bottom,
            group: g,
            value: 0,
        }
    }

    // A write of v to group g.
    pub fn write_of(bottom: bool, g: u32, v: u32) -> Access
        ensures { result ≡ write_of bottom g v }
    {
        Access {
            write: true,
            bottom,
            group: g,
            value: v,
        }
    }
}

impl Tracker {
    // A tracker with no access: every field zero.
    pub fn rest() -> Tracker
        ensures { result ≡ idle }
    {
        Tracker::default()
    }

    // An access at its first phase; a read has no value, and keeps 0.
    pub fn begin(access: Access) -> Tracker
        ensures { result ≡ issued access }
    {
        Tracker {
            phase: if access.bottom {
                Phase::Probe(0)
            } else {
                Phase::Top
            },
            write: access.write,
            bottom: access.bottom,
            group: access.group,
            value: if access.write { access.value } else { 0 },
            ..Tracker::rest()
        }
    }

    // The tracker at a phase, one turn more, with its transfers.
    fn at(self, phase: Phase, transfers: Transfers) -> Tracker
        ensures { result ≡ at self phase transfers }
    {
        Tracker {
            phase,
            turns: one_more(self.turns),
            transfers,
            ..self
        }
    }

    // The tracker at another phase, one turn and these transfers more.
    pub fn go_to(self, phase: Phase, more: Transfers) -> Tracker
        ensures { result ≡ goes_to self phase more }
    {
        self.at(phase, self.transfers.plus(more))
    }

    // The tracker where it is, one turn more.
    pub fn count(self) -> Tracker
        ensures { result ≡ counted self }
    {
        self.at(self.phase, self.transfers)
    }

    // The tracker has no access.
    pub fn is_idle(self) -> bool
        ensures { result ≡ is_idle self }
    {
        self.phase == Phase::Idle
    }
}
