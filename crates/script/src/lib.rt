// 01 "The replay program": a line of a script, taken for what it asks.
// No public function has a `requires`.
#![tactic(auto)]

ghost use Rattle.std.specs.Prelude.{◌≡◌, ◌∷◌, [], ◌≤◌, ◌<◌, ◌^◌, Some, None, MatchOption, ◌==◌};
ghost use Rattle.std.specs.List.{position};
ghost use Rattle.script.specs.Script.{asks, fields, of_fields, digit_of, numeral, decimal, hex, order, is_letter, step_line, new_line, read_line, write_line, asks_for};

// What a line asks for.
#[derive(Clone, Copy, PartialEq, Eq, Debug)]
pub enum Command {
    New(u32, u32, u32),
    Read(u32, u32, bool),
    Write(u32, u32, u32, bool),
    Step(u32),
    Drain,
}

// The value of a digit; none for any other byte.
fn digit(b: u8) -> Option<u32>
    ensures { MatchOption result (digit_of b ≡ 16) (λ d. (d ≡ digit_of b) × (d < 16)) }
{
    match b {
        b'0'..=b'9' => Some(u32::from(b - b'0')),
        b'a'..=b'f' => Some(u32::from(b - b'a') + 10),
        _ => None,
    }
}

// The field as a number in `base`, of `least` to `most` digits.
fn numeral(field: &[u8], base: u32, least: usize, most: usize) -> Option<u32>
    requires { (0 < base) × (base ≤ 16) × (base ^ most ≤ 4294967296) }
    ensures { result ≡ numeral base least most field.now }
{
    if field.len() < least || most < field.len() {
        return None;
    }
    let mut v = 0;
    for b in field {
        let d = digit(*b)?;
        if base <= d {
            return None;
        }
        v = v * base + d;
    }
    Some(v)
}

// The field as a decimal number of 1 to 9 digits.
fn decimal(field: &[u8]) -> Option<u32>
    ensures { result ≡ decimal field.now }
{
    numeral(field, 10, 1, 9)
}

// The field as a number of 8 lower-case hex digits.
fn hex(field: &[u8]) -> Option<u32>
    ensures { result ≡ hex field.now }
{
    numeral(field, 16, 8, 8)
}

// The field is the letter c.
fn is_letter(field: &[u8], c: u8) -> bool
    ensures { result ≡ is_letter field.now c }
{
    field == [c].as_slice()
}

// The field as an order: whether it is `b`.
fn order(field: &[u8]) -> Option<bool>
    ensures { result ≡ order field.now }
{
    match field {
        b"t" => Some(false),
        b"b" => Some(true),
        _ => None,
    }
}

// `s T`
fn step_line(x: &[u8]) -> Option<Command>
    ensures { asks result ≡ step_line x.now }
{
    Some(Command::Step(decimal(x)?))
}

// `n N L T`
fn new_line(n: &[u8], l: &[u8], t: &[u8]) -> Option<Command>
    ensures { asks result ≡ new_line n.now l.now t.now }
{
    Some(Command::New(decimal(n)?, decimal(l)?, decimal(t)?))
}

// `r T G O`
fn read_line(x: &[u8], g: &[u8], o: &[u8]) -> Option<Command>
    ensures { asks result ≡ read_line x.now g.now o.now }
{
    Some(Command::Read(decimal(x)?, decimal(g)?, order(o)?))
}

// `w T G V O`
fn write_line(x: &[u8], g: &[u8], v: &[u8], o: &[u8]) -> Option<Command>
    ensures { asks result ≡ write_line x.now g.now v.now o.now }
{
    Some(Command::Write(decimal(x)?, decimal(g)?, hex(v)?, order(o)?))
}

// Where the first b is.
// Kept: a loop; `position` on the iterator keeps its place in memory, and replay is 4 parts in 100 slower by it (0.1821 s against 0.1755 s, a loaded machine).
pub fn find(bytes: &[u8], b: u8) -> Option<usize>
    ensures { result ≡ position (λ x. x == b) bytes.now }
{
    for (i, x) in bytes.iter().enumerate() {
        if *x == b {
            return Some(i);
        }
    }
    None
}

// The line's first field, and what stands after its space; none where the line is one field.
fn cut(line: &[u8]) -> Option<(&[u8], &[u8])>
    ensures { MatchOption result (fields line.now ≡ line.now ∷ []) (λ p. fields line.now ≡ p.0.now ∷ fields p.1.now) }
{
    let k = find(line, b' ')?;
    Some((&line[..k], &line[k + 1..]))
}

// What the line asks for by its letter, and by how many fields it has.
fn of_fields(line: &[u8]) -> Option<Command>
    ensures { asks result ≡ of_fields (fields line.now) }
{
    let Some((a, x)) = cut(line) else {
        return if is_letter(line, b'd') {
            Some(Command::Drain)
        } else {
            None
        };
    };
    let Some((b, x)) = cut(x) else {
        return if is_letter(a, b's') {
            step_line(x)
        } else {
            None
        };
    };
    let (c, x) = cut(x)?;
    let Some((d, x)) = cut(x) else {
        if is_letter(a, b'n') {
            return new_line(b, c, x);
        }
        return if is_letter(a, b'r') {
            read_line(b, c, x)
        } else {
            None
        };
    };
    match cut(x) {
        None if is_letter(a, b'w') => write_line(b, c, d, x),
        None => None,
        Some(_) => None,
    }
}

// What a line asks for; none where it is not of the form.
pub fn parse(line: &[u8]) -> Option<Command>
    ensures { asks result ≡ asks_for line.now }
{
    if line.len() <= 64 {
        of_fields(line)
    } else {
        None
    }
}
