//! What is printed: a line for power-on and for each event, or the number of a bad line.
ghost use Rattle.std.specs.Prelude.{◌≡◌, ◌≤◌, [], ◌∷◌, length, Some};
ghost use Rattle.script.specs.Events.{letter_of};
ghost use Rattle.script.specs.Outcomes.{answer_text, mode_letter, sum_of_bits, outcome_text, bad_line_text};

use codes::Report;
use head::Mode;
use std::fmt;

/// What a printed line is about.
#[derive(Clone, Copy)]
pub enum Kind {
    PowerOn,
    Frame,
    Ticks,
    Sample,
    Second,
}

/// What is printed of power-on or of an event: its answer, and how the head reads after it.
#[derive(Clone, Copy)]
pub struct Outcome {
    pub kind: Kind,
    pub fault: Option<Report>,
    pub mode: Mode,
    pub supplies: [u8; 2],
    pub heaters: [bool; 2],
    pub lines: [bool; 6],
}

/// What is printed of a line that is malformed or missing, the first being line 1.
#[derive(Clone, Copy)]
pub struct BadLine {
    pub number: u32,
}

// The answer to an event: `ok`, or layer, code and place of the fault.
#[derive(Clone, Copy)]
struct Answer {
    fault: Option<Report>,
}

// The letter of a mode. `Mode` is of another crate, so it cannot be printed by an impl here.
fn mode_letter(mode: Mode) -> &'static str
    ensures { result.now ≡ mode_letter mode ∷ [] }
{
    match mode {
        Mode::Safe => "S",
        Mode::Checkout => "C",
    }
}

// The sum of 1, 2, 4 and so on, for those that are on.
fn sum_of_bits(on: &[bool]) -> u8
    requires { length on.now ≤ 8 }
    ensures { result ≡ sum_of_bits on.now }
{
    let mut sum = 0;
    for bit in on.iter().rev() {
        sum = 2 * sum + u8::from(*bit);
    }
    sum
}

// The letter that a line begins with.
impl fmt::Display for Kind {
    ghost output = { λ x. Some (letter_of x ∷ []) };

    fn fmt<W: fmt::Write>(&self, f: &mut fmt::Formatter<W>) -> fmt::Result {
        match self {
            Kind::PowerOn => write!(f, "P"),
            Kind::Frame => write!(f, "F"),
            Kind::Ticks => write!(f, "T"),
            Kind::Sample => write!(f, "H"),
            Kind::Second => write!(f, "S"),
        }
    }
}

impl fmt::Display for Answer {
    ghost output = { λ x. Some (answer_text x.fault) };

    fn fmt<W: fmt::Write>(&self, f: &mut fmt::Formatter<W>) -> fmt::Result {
        match self.fault {
            None => write!(f, "ok"),
            Some(
                Report {
                    layer,
                    code,
                    place,
                    ..
                },
            ) => write!(f, "{layer}:{code}:{place}"),
        }
    }
}

impl fmt::Display for Outcome {
    ghost output = { λ x. Some (outcome_text x) };

    fn fmt<W: fmt::Write>(&self, f: &mut fmt::Formatter<W>) -> fmt::Result {
        let kind = self.kind;
        let answer = Answer { fault: self.fault };
        let mode = mode_letter(self.mode);
        let [supply0, supply1] = self.supplies;
        let heaters = sum_of_bits(&self.heaters);
        let lines = sum_of_bits(&self.lines);
        write!(
            f,
            "{kind} {answer} {mode} {supply0} {supply1} {heaters} {lines}"
        )
    }
}

impl fmt::Display for BadLine {
    ghost output = { λ x. Some (bad_line_text x.number) };

    fn fmt<W: fmt::Write>(&self, f: &mut fmt::Formatter<W>) -> fmt::Result {
        write!(f, "E {}", self.number)
    }
}
