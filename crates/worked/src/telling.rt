// What the calls answer, as results: refusals, and what else ends a demonstration early; times and refusals as text.
ghost use Rattle.std.specs.Prelude.{◌<◌};

use door::Answer;
use std::{fmt, io};

// A call was refused, by the question of this number.
#[derive(Clone, Copy, Debug, PartialEq, Eq)]
pub struct Refused(pub u32);

impl fmt::Display for Refused {
    fn fmt<W: fmt::Write>(&self, f: &mut fmt::Formatter<W>) -> fmt::Result {
        let Refused(question) = *self;
        write!(f, "refused by question {question}")
    }
}

// Why a demonstration ends early: a call was refused, or the system took no output.
#[derive(Debug, Drop)]
pub enum Fault {
    Refused(Refused),
    System(io::Error),
}

impl From<Refused> for Fault {
    fn from(refused: Refused) -> Fault {
        Fault::Refused(refused)
    }
}

impl From<io::Error> for Fault {
    fn from(error: io::Error) -> Fault {
        Fault::System(error)
    }
}

// What the code of a call says: 0 is success.
pub fn admitted(code: u32) -> Result<(), Refused> {
    match code {
        0 => Ok(()),
        question => Err(Refused(question)),
    }
}

// The number that a call answers.
pub fn value(answer: Answer) -> Result<u32, Refused> {
    admitted(answer.code)?;
    Ok(answer.value)
}

// A refusal is told, and the program goes on; what else ended the demonstration ends the program.
pub fn told(rt: &impl Print, outcome: Result<(), Fault>) -> io::Result<()> {
    match outcome {
        Ok(()) => Ok(()),
        Err(Fault::Refused(refused)) => println!(rt; "  {refused}"),
        Err(Fault::System(error)) => Err(error),
    }
}

// A service second with its clock reading, as 385 s (0:06:25).
#[derive(Clone, Copy)]
pub struct Time(pub u32);

impl fmt::Display for Time {
    fn fmt<W: fmt::Write>(&self, f: &mut fmt::Formatter<W>) -> fmt::Result {
        let Time(second_of_day) = *self;
        let hours = second_of_day / 3600;
        let minutes = second_of_day / 60 % 60;
        let seconds = second_of_day % 60;
        write!(f, "{second_of_day} s ({hours}:{minutes:02}:{seconds:02})")
    }
}

// Row i of a table of rows of N words; zeros past the end.
pub fn row<const N: usize>(table: &[u32], i: usize) -> [u32; N]
    requires { 0 < N }
{
    let (rows, _) = table.as_chunks::<N>();
    rows.get(i).copied().unwrap_or([0; N])
}
