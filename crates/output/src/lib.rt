// 01 "The replay program": a line of its output. Reading one says whether it is a line of replay at all and, of an ending, what it carries and where its turn count stands.
// No public function has a `requires`. A line is its bytes, newline apart.
#![tactic(auto)]

ghost use Rattle.std.specs.Prelude.{◌≡◌, ◌+◌, ◌-◌, ◌<◌, ◌≤◌, true, false, length, take, drop, MatchOption, ◌↔◌, IsTrue};
ghost use Rattle.std.specs.List.{AllPass};
ghost use Rattle.output.specs.Line.{alike_at, after_at, ends_at, digit_at, digits_from, number_at, small_of, hex_of, value_at, closing_at, plain_at, reads_at, count_at, transfers_at, ending_of, answer_at, line_of, is_line};

// A number in a line: what it is, which stays at 65,536 once there, and the place after it.
#[derive(Clone, Copy)]
pub struct Number {
    pub value: u32,
    pub next: usize,
}

// Blocks fetched and blocks written back.
// Kept: beside tracker's type of that name, whose sums are bytes (what may not change: drift prints what a line tells, up to 65,535).
#[derive(Clone, Copy, PartialEq, Eq)]
pub struct Transfers {
    pub fetched: u32,
    pub back: u32,
}

// What an ending carries. A record of before 02's E4 tells no transfers.
#[derive(Clone, Copy)]
pub struct Counts {
    pub turns: u32,
    pub transfers: Option<Transfers>,
}

// The place of an ending's turn count, what the ending carries, and the place after the count.
#[derive(Clone, Copy)]
pub struct Ending {
    pub at: usize,
    pub counts: Counts,
    pub next: usize,
}

// A line of replay: one that is no ending, or an ending.
#[derive(Clone, Copy)]
pub enum Line {
    Plain,
    Ending(Ending),
}

// n bytes from a place on; none where they are not all there.
fn part(s: &[u8], at: usize, n: usize) -> Option<&[u8]>
    ensures { MatchOption result (length s.now < at + n) (λ p. (at + n ≤ length s.now) × (p.now ≡ take n (drop at s.now))) }
{
    s.get(at..)?.get(..n)
}

// Whether n bytes from i in a and from j in b are there, and are the same.
#[tactic(auto, using(crate::proofs::Lines::cuts))]
pub fn alike(a: &[u8], i: usize, b: &[u8], j: usize, n: usize) -> bool
    ensures { result ≡ alike_at a.now i b.now j n }
{
    match (part(a, i, n), part(b, j, n)) {
        (Some(x), Some(y)) => x == y,
        _ => false,
    }
}

// The place after the word w, where it stands at a place.
#[tactic(auto, using(crate::proofs::Lines::words))]
fn after(s: &[u8], at: usize, w: &[u8]) -> Option<usize>
    ensures { result ≡ after_at s.now at w.now }
{
    (part(s, at, w.len())? == w).then_some(at + w.len())
}

// Whether it stands there and the line ends with it.
#[tactic(auto, using(crate::proofs::Lines::tests), unfolding(crate::specs::Line::ends_at, laws::specs::Choice::both))]
fn ends(s: &[u8], at: usize, w: &[u8]) -> bool
    ensures { result ≡ ends_at s.now at w.now }
{
    after(s, at, w) == Some(s.len())
}

// The digit at a place.
#[tactic(auto, using(crate::proofs::Lines::tests), unfolding(crate::specs::Line::digit_at, crate::specs::Line::digit_of))]
fn digit_at(s: &[u8], at: usize) -> Option<u32>
    ensures { MatchOption result (digit_at s.now at ≡ 10) (λ d. (d ≡ digit_at s.now at) × (d < 10) × (at < length s.now)) }
{
    match s.get(at)? {
        b @ b'0'..=b'9' => Some(u32::from(b - b'0')),
        _ => None,
    }
}

// The digits from a place on.
fn digits(s: &[u8], at: usize) -> Number
    ensures { result ≡ digits_from (length s.now - at) s.now at 0 }
{
    let mut value = 0;
    for i in at..s.len() {
        let Some(d) = digit_at(s, i) else {
            return Number { value, next: i };
        };
        value = (value * 10 + d).min(65536);
    }
    Number {
        value,
        next: at.max(s.len()),
    }
}

// A number at a place.
#[tactic(auto, using(crate::proofs::Lines::tests), unfolding(crate::specs::Line::number_at, laws::specs::Choice::both))]
fn number_at(s: &[u8], at: usize) -> Option<Number>
    ensures { result ≡ number_at s.now at }
{
    let d = digit_at(s, at)?;
    if d == 0 && digit_at(s, at + 1).is_some() {
        return None;
    }
    Some(digits(s, at))
}

// One of at most 65,535.
#[tactic(auto, using(crate::proofs::Lines::tests), unfolding(crate::specs::Line::small_of))]
fn small_at(s: &[u8], at: usize) -> Option<Number>
    ensures { result ≡ small_of (number_at s.now at) }
{
    number_at(s, at).filter(|n| n.value < 65536)
}

// Whether a byte is a digit of V: 0 to 9, a to f.
#[tactic(auto, using(crate::proofs::Lines::tests), unfolding(crate::specs::Line::hex_of, laws::specs::Choice::both, laws::specs::Choice::either))]
fn hex(b: u8) -> bool
    ensures { result ≡ hex_of b }
{
    matches!(b, b'0'..=b'9' | b'a'..=b'f')
}

// Whether each byte is one.
fn all_hex(v: &[u8]) -> bool
    ensures { IsTrue result ↔ AllPass hex_of v.now }
{
    v.iter().all(|b| hex(*b))
}

// Whether a value, 8 lower-case hex digits, stands at a place.
fn value(s: &[u8], at: usize) -> bool
    ensures { result ≡ value_at s.now at }
{
    match part(s, at, 8) {
        Some(v) => all_hex(v),
        None => false,
    }
}

// The number of at most 65,535 with which the line ends, behind the word w at a place.
#[tactic(auto, using(crate::proofs::Lines::tests), unfolding(crate::specs::Line::closing_at, crate::specs::Line::closes_at, crate::specs::Line::small_of, crate::specs::Line::last_of, crate::specs::Line::number_is, laws::specs::Choice::both))]
fn closing(s: &[u8], at: usize, w: &[u8]) -> Option<u32>
    ensures { result ≡ closing_at s.now at w.now }
{
    let n = small_at(s, after(s, at, w)?)?;
    if n.next == s.len() {
        Some(n.value)
    } else {
        None
    }
}

// Whether `ok`, `wait`, `moved` or `no C` stands there.
#[tactic(auto, using(crate::proofs::Lines::closing_tells), unfolding(crate::specs::Line::plain_at, laws::specs::Choice::either))]
fn plain(s: &[u8], at: usize) -> bool
    ensures { result ≡ plain_at s.now at }
{
    ends(s, at, b"ok")
        || ends(s, at, b"wait")
        || ends(s, at, b"moved")
        || closing(s, at, b"no ").is_some()
}

// The place after `read V turns `, where it stands at a place.
#[tactic(auto, using(crate::proofs::Lines::tests), unfolding(crate::specs::Line::reads_at, laws::specs::Choice::both))]
fn reads(s: &[u8], at: usize) -> Option<usize>
    ensures { MatchOption result (reads_at s.now at ≡ false) (λ k. (reads_at s.now at ≡ true) × (k ≡ at + 20)) }
{
    let v = after(s, at, b"read ")?;
    if value(s, v) {
        return after(s, v + 8, b" turns ");
    }
    None
}

// Where the count of an ending that begins at a place stands.
#[tactic(auto, using(crate::proofs::Lines::tests), unfolding(crate::specs::Line::count_at, laws::specs::Choice::either))]
fn count_at(s: &[u8], at: usize) -> Option<usize>
    ensures { MatchOption result (count_at s.now at ≡ 0) (λ k. (k ≡ count_at s.now at) × (0 < k)) }
{
    after(s, at, b"done turns ")
        .or_else(|| after(s, at, b"same turns "))
        .or_else(|| reads(s, at))
}

// The transfers ` in I out O`, where they stand at a place and the line ends with them.
#[tactic(auto, using(crate::proofs::Lines::tests), unfolding(crate::specs::Line::transfers_at, crate::specs::Line::out_of, crate::specs::Line::closing_at, crate::specs::Line::small_of, laws::specs::Choice::both))]
fn transfers_at(s: &[u8], at: usize) -> Option<Transfers>
    ensures { result ≡ transfers_at s.now at }
{
    let fetched = small_at(s, after(s, at, b" in ")?)?;
    let back = closing(s, fetched.next, b" out ")?;
    Some(Transfers {
        fetched: fetched.value,
        back,
    })
}

// The ending whose count stands at a place.
#[tactic(auto, using(crate::proofs::Lines::tests), unfolding(crate::specs::Line::ending_of, crate::specs::Line::ending_with, crate::specs::Line::small_of, crate::specs::Line::rest_at))]
fn ending_of(s: &[u8], at: usize) -> Option<Line>
    ensures { result ≡ ending_of s.now at (number_at s.now at) }
{
    let Number { value: turns, next } = small_at(s, at)?;
    let transfers = if next == s.len() {
        None
    } else {
        Some(transfers_at(s, next)?)
    };
    let counts = Counts { turns, transfers };
    Some(Line::Ending(Ending { at, counts, next }))
}

// What stands after the line number and its space.
#[tactic(auto, using(crate::proofs::Lines::tests), unfolding(crate::specs::Line::answer_at))]
fn answer(s: &[u8], at: usize) -> Option<Line>
    ensures { result ≡ answer_at s.now at }
{
    if plain(s, at) {
        return Some(Line::Plain);
    }
    ending_of(s, count_at(s, at)?)
}

// What a line of replay is; none where it is no line of replay.
#[tactic(auto, using(crate::proofs::Lines::tests), unfolding(crate::specs::Line::line_of, crate::specs::Line::after_number))]
pub fn read(s: &[u8]) -> Option<Line>
    ensures { result ≡ line_of s.now }
{
    let number = number_at(s, 0)?;
    answer(s, after(s, number.next, b" ")?)
}

// Whether a line is a line of replay.
#[tactic(auto, unfolding(crate::specs::Line::is_line))]
pub fn is_line(s: &[u8]) -> bool
    ensures { result ≡ is_line (line_of s.now) }
{
    read(s).is_some()
}
