#![tactic(auto)]
// What the programs over the fixed sample share. A line has the words OP A B C STATUS X Y Z in hexadecimal, of 2, 16, 16, 16, 2, 16, 16
// and 16 digits, with a space after each and a newline after the last.
ghost use Rattle.std.specs.Prelude.{◌≡◌, ◌+◌, ◌%◌, ◌^◌, ◌<◌, ◌≤◌, ◌∷◌, [], ◌++◌, slice_index, MatchOption, IfOk, OnOk};
ghost use Rattle.std.specs.Fmt.{decimal};
ghost use Rattle.std.specs.Io.KnownBytes.{Appends};
ghost use Rattle.sample.specs.Text.{digit_of, number, op_of, line_of, first_is};
ghost use Rattle.sample.specs.Word.{float_of, is_float, length_of};
ghost use Rattle.sample.specs.Op.{number_of};
ghost use Rattle.sample.specs.Count.{differing_of, counted_of};
ghost use Rattle.sample.specs.Reading.{IsNext, Replays};
ghost use Rattle.sample.specs.Answers.{SaysSame};

use refusals::Refusal;
use std::io;
use std::io::{ErrorKind, Read, Write};

// The call of a text that is no line, as where the sample has ended; a line has two digits for its own.
// Kept: no `Option`, since `line_of` gives every text a line, and the edit `parse_takes_any_text` holds that one without a newline is this one.
pub const END: usize = 256;

#[derive(Clone, Copy)]
pub struct Line {
    pub op: usize,
    pub a: u64,
    pub b: u64,
    pub c: u64,
    // The low halves of B and C.
    pub low_b: u32,
    pub low_c: u32,
    pub status: u32,
    pub x: u64,
    pub y: u64,
    pub z: u64,
}

// The calls that lines are of, in the order of their numbers.
#[derive(Clone, Copy, PartialEq, Eq)]
pub enum Op {
    Level,
    IsCell,
    Parent,
    Child,
    Add,
    Sub,
    HalfSize,
    Centre,
    Vertex,
    IsInner,
    Side,
    ShouldRefine,
    Start,
    Distance,
    KeysAt,
    NodeAt,
    Put,
    Sound,
    LookUp,
    List,
    VertexAt,
    DualCell,
    Slabs,
    Lifetimes,
}

impl Op {
    pub fn of(number: usize) -> Option<Op>
        ensures { MatchOption result (24 ≤ number) (λ op. number_of op ≡ number) }
    {
        match number {
            0 => Some(Op::Level),
            1 => Some(Op::IsCell),
            2 => Some(Op::Parent),
            3 => Some(Op::Child),
            4 => Some(Op::Add),
            5 => Some(Op::Sub),
            6 => Some(Op::HalfSize),
            7 => Some(Op::Centre),
            8 => Some(Op::Vertex),
            9 => Some(Op::IsInner),
            10 => Some(Op::Side),
            11 => Some(Op::ShouldRefine),
            12 => Some(Op::Start),
            13 => Some(Op::Distance),
            14 => Some(Op::KeysAt),
            15 => Some(Op::NodeAt),
            16 => Some(Op::Put),
            17 => Some(Op::Sound),
            18 => Some(Op::LookUp),
            19 => Some(Op::List),
            20 => Some(Op::VertexAt),
            21 => Some(Op::DualCell),
            22 => Some(Op::Slabs),
            23 => Some(Op::Lifetimes),
            _ => None,
        }
    }

    pub fn number(self) -> usize
        ensures value { result ≡ number_of self }
        ensures bound { result < 24 }
    {
        self as usize
    }
}

// How many lines of each call agreed, and how many of all differ.
#[derive(Clone, Copy)]
pub struct Tally {
    pub agree: [u64; 24],
    pub differ: u64,
}

// The value of a hexadecimal digit; of any other byte, 0.
#[tactic(auto, unfolding(crate::specs::Text::digit_of))]
fn digit(b: u8) -> u64
    ensures value { result ≡ digit_of b }
    ensures bound { result < 16 }
{
    // Kept: std's `to_digit` takes A to F for digits too.
    match b {
        b'0'..=b'9' => u64::from(b - b'0'),
        b'a'..=b'f' => u64::from(b - b'a' + 10),
        _ => 0,
    }
}

fn word(text: [u8; 108], at: usize, digits: usize) -> u64
    requires within { at + digits ≤ 108 }
    requires few { digits ≤ 16 }
    ensures value { result ≡ number text at digits }
    ensures bound { result < 16 ^ digits }
{
    let mut n = 0;
    for i in 0..digits {
        n = n * 16 + digit(text[at + i]);
    }
    n
}

// The low half of a word.
pub fn low(n: u64) -> u32
    ensures { result ≡ n % 2 ^ 32 }
{
    // Kept: an `as` may lose nothing, and std has no call for a low half.
    (n % 0x1_0000_0000) as u32
}

fn op_of(text: [u8; 108]) -> usize
    ensures { result ≡ op_of text }
{
    if text[107] != b'\n' {
        return END;
    }
    word(text, 0, 2) as usize
}

pub fn parse(text: [u8; 108]) -> Line
    ensures { result ≡ line_of text }
{
    let b = word(text, 20, 16);
    let c = word(text, 37, 16);
    Line {
        op: op_of(text),
        a: word(text, 3, 16),
        b,
        c,
        low_b: low(b),
        low_c: low(c),
        status: word(text, 54, 2) as u32,
        x: word(text, 57, 16),
        y: word(text, 74, 16),
        z: word(text, 91, 16),
    }
}

// The next line of a sample, of the input's next 108 bytes; where they are not there, no line.
pub fn read_line<R: Read>(input: &mut R) -> io::Result<Line>
    ensures { IfOk result (IsNext (R.remaining input.old) (R.remaining input.new)) }
{
    let mut text = [0u8; 108];
    match input.read_exact(&mut text) {
        Ok(()) => Ok(parse(text)),
        Err(e) if e.kind() == ErrorKind::UnexpectedEof => Ok(parse([0u8; 108])),
        Err(e) => Err(e),
    }
}

// The float of a word's low half; of every NaN's pattern, the NaN.
pub fn float(bits: u64) -> f32
    ensures { result ≡ float_of bits }
{
    floats::from_bits(low(bits))
}

// Whether a word's low half is the pattern of d. The sign of a zero counts; every NaN has the one pattern.
pub fn is_float(d: f32, bits: u64) -> bool
    ensures { result ≡ is_float d bits }
{
    floats::to_bits(d) == low(bits)
}

// Whether a line is no refusal and its first result is n.
pub fn first_is(l: Line, n: u64) -> bool
    ensures { result ≡ first_is l n }
{
    l.status == 0 && n == l.x
}

// Whether an answer is what its line says: the refusal of that number, or else a value of which `is` holds.
pub fn same<T: Copy, F: FnOnce(T) -> bool + Drop>(
    answer: Result<T, Refusal>,
    l: Line,
    is: F,
) -> bool
    requires { F.IsAlwaysCallable is }
    ensures { SaysSame (F.post is) l result answer }
{
    match answer {
        Ok(value) => l.status == 0 && is(value),
        Err(refusal) => refusal.number() == l.status,
    }
}

// One of the four lengths that are packed in a word, the lowest being number 0, and at most so many.
pub fn length_at(packed: u64, which: u32, most: usize) -> usize
    ensures { result ≡ length_of packed which most }
{
    let n = (packed >> (which % 4 * 16)) as usize % 0x1_0000;
    n.min(most)
}

fn differing(t: Tally) -> Tally
    ensures { result ≡ differing_of t }
{
    let agree = t.agree;
    Tally {
        agree,
        differ: t.differ.wrapping_add(1),
    }
}

// The counts with one line more. A call that no line has differs.
pub fn counted(t: Tally, op: usize, same: bool) -> Tally
    ensures { result ≡ counted_of t op same }
{
    if !same || op >= 24 {
        return differing(t);
    }
    let mut agree = t.agree;
    agree[op] = agree[op].wrapping_add(1);
    Tally {
        agree,
        differ: t.differ,
    }
}

impl Tally {
    pub fn agreeing(&self, op: Op) -> u64
        ensures { result ≡ slice_index self.now.agree (number_of op) }
    {
        self.agree[op.number()]
    }
}

// Asks of each line of a sample whether it agrees, up to the sample's end, and counts.
pub fn replay<R: Read, F: FnMut(Line) -> bool>(input: &mut R, mut agrees: F) -> io::Result<Tally>
    requires { F.IsAlwaysCallable agrees }
    ensures { IfOk result (Replays F.step agrees (R.remaining input.old)) }
{
    let mut tally = Tally {
        agree: [0; 24],
        differ: 0,
    };
    for _ in 0..100_000 {
        let l = read_line(input)?;
        if l.op == END {
            break;
        }
        let same = agrees(l);
        tally = counted(tally, l.op, same);
    }
    Ok(tally)
}

// A name and a count, on a line of their own.
pub fn show<W: Write>(output: &mut W, name: &str, count: u64) -> io::Result<()>
    ensures { OnOk result (Appends (W.contents output.old) (W.contents output.new) (name.now ++ (32 ∷ (decimal count ++ (10 ∷ []))))) }
{
    writeln!(output, "{name} {count}")
}
