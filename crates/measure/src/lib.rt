// The measurement: two lines of replay's output compared, and the sheet's numbers over two lists of lines.
// No public function has a `requires`. A line is its bytes, newline apart.
#![tactic(auto)]

ghost use Rattle.std.specs.Prelude.{◌≡◌};
ghost use Rattle.measure.specs.Pair.{same_from, other_pair, ending_pair, pair_of, one_pair, drift_of, differing};
ghost use Rattle.measure.specs.Sheet.{plus_blocks, no_tally, added};

use output::{Counts, Ending, Line, Transfers};

// What an ending carries in the record and in the replay.
#[derive(Clone, Copy)]
pub struct Carried {
    pub recorded: Counts,
    pub replayed: Counts,
}

// One place of the record and of the replay compared.
#[derive(Clone, Copy)]
pub struct Pair {
    // what it carries, where it is an ending of the same kind and value in both
    pub ending: Option<Carried>,
    // it differs in any other way, or only one has it
    pub changed: bool,
}

// Whether a from i on and b from j on are the same bytes.
#[tactic(auto, using(crate::proofs::Pairs::tests), unfolding(crate::specs::Pair::same_from, laws::specs::Choice::both))]
fn same_from(a: &[u8], i: usize, b: &[u8], j: usize) -> bool
    ensures { result ≡ same_from a.now i b.now j }
{
    let n = a.len().saturating_sub(i);
    n == b.len().saturating_sub(j) && output::alike(a, i, b, j, n)
}

// No ending of the same kind and value in both.
#[tactic(auto, using(crate::proofs::Pairs::tests), unfolding(crate::specs::Pair::other_pair))]
fn other_pair(a: &[u8], b: &[u8]) -> Pair
    ensures { result ≡ other_pair a.now b.now }
{
    Pair {
        ending: None,
        changed: a != b,
    }
}

// An ending of the same kind and value in both.
#[tactic(auto, using(crate::proofs::Pairs::tests), unfolding(crate::specs::Pair::ending_pair))]
fn ending_pair(a: &[u8], x: Ending, b: &[u8], y: Ending) -> Pair
    ensures { result ≡ ending_pair a.now x.counts x.next b.now y.counts y.next }
{
    let same = if x.counts.turns == y.counts.turns {
        a == b
    } else {
        same_from(a, x.next, b, y.next)
    };
    let carried = Carried {
        recorded: x.counts,
        replayed: y.counts,
    };
    Pair {
        ending: Some(carried),
        changed: !same,
    }
}

// A line of the record and the line at the same place of the replay. Endings are of the same kind and value where all bytes before their counts are the same.
#[tactic(auto, using(crate::proofs::Pairs::tests), unfolding(crate::specs::Pair::pair_of, crate::specs::Pair::pair_lines, crate::specs::Pair::pair_ending, laws::specs::Choice::both))]
pub fn compare(recorded: &[u8], replayed: &[u8]) -> Pair
    ensures { result ≡ pair_of recorded.now replayed.now }
{
    match (output::read(recorded), output::read(replayed)) {
        (Some(Line::Ending(x)), Some(Line::Ending(y)))
            if x.at == y.at && output::alike(recorded, 0, replayed, 0, x.at) => {
            ending_pair(recorded, x, replayed, y)
        }
        _ => other_pair(recorded, replayed),
    }
}

impl Pair {
    // A place where only one of the two has a line.
    pub fn only_one() -> Pair
        ensures { result ≡ one_pair }
    {
        Pair {
            ending: None,
            changed: true,
        }
    }

    // How far its turn counts are apart, up or down; 0 where it is no ending of the same kind and value.
    #[tactic(auto, using(crate::proofs::Pairs::tests), unfolding(crate::specs::Pair::drift_of))]
    pub fn drift(self) -> u32
        ensures { result ≡ drift_of self }
    {
        match self.ending {
            Some(e) => e.recorded.turns.abs_diff(e.replayed.turns),
            None => 0,
        }
    }

    // The transfers that the record and the replay tell, where both tell them and one of the two sums is another.
    #[tactic(auto, using(crate::proofs::Pairs::tests), unfolding(crate::specs::Pair::differing, crate::specs::Pair::other_transfers, laws::specs::Choice::both))]
    pub fn other_transfers(self) -> Option<(Transfers, Transfers)>
        ensures { result ≡ differing self }
    {
        let e = self.ending?;
        let (t, u) = (e.recorded.transfers?, e.replayed.transfers?);
        if t != u { Some((t, u)) } else { None }
    }
}

// Blocks fetched and blocks written back, of many endings.
// Kept: beside output's `Transfers`, of 64 bits (no plainer as one type with a parameter: `plus` could be no method of another crate's type).
#[derive(Clone, Copy, Default)]
pub struct Blocks {
    pub fetched: u64,
    pub back: u64,
}

// The sheet's numbers, and how many places they are of. Each stays at 2^64 - 1 once there.
#[derive(Clone, Copy, Default)]
pub struct Tally {
    pub lines: u64,
    pub endings: u64,
    pub drifted: u64,
    pub farthest: u64,
    pub line: u64,
    pub total: u64,
    pub changed: u64,
    pub recorded: Blocks,
    pub replayed: Blocks,
}

impl Blocks {
    // Those of one more ending.
    #[tactic(auto, using(crate::proofs::Pairs::tests), unfolding(crate::specs::Sheet::plus_blocks))]
    fn plus(self, counts: Counts) -> Blocks
        ensures { result ≡ plus_blocks self counts }
    {
        match counts.transfers {
            Some(t) => Blocks {
                fetched: self.fetched.saturating_add(u64::from(t.fetched)),
                back: self.back.saturating_add(u64::from(t.back)),
            },
            None => self,
        }
    }
}

impl Tally {
    // Of no place.
    pub fn new() -> Tally
        ensures { result ≡ no_tally }
    {
        Tally::default()
    }

    // One more place.
    #[tactic(auto, using(crate::proofs::Pairs::tests), unfolding(crate::specs::Sheet::added))]
    pub fn add(self, pair: Pair) -> Tally
        ensures { result ≡ added self pair }
    {
        let lines = self.lines.saturating_add(1);
        let changed = self.changed.saturating_add(u64::from(pair.changed));
        let Some(e) = pair.ending else {
            return Tally {
                lines,
                changed,
                ..self
            };
        };
        let d = u64::from(pair.drift());
        let (farthest, line) = if self.farthest < d {
            (d, lines)
        } else {
            (self.farthest, self.line)
        };
        Tally {
            lines,
            endings: self.endings.saturating_add(1),
            drifted: self.drifted.saturating_add(u64::from(0 < d)),
            farthest,
            line,
            total: self.total.saturating_add(d),
            changed,
            recorded: self.recorded.plus(e.recorded),
            replayed: self.replayed.plus(e.replayed),
        }
    }
}
