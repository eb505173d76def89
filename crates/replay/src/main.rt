// replay: a program that puts a fixed list of inputs to the exported calls and compares the answers with the Rust's.
// The list is the program's standard input (`stdin`), a case a line; `beside/run list` writes it by asking the Rust of
// the port alone, and beside/list.rs says what each line holds. The program prints only how many lines it replayed and
// how many differed. All calls count in one tally, zero at first, which lines of the list compare with the list's own count.
// Place: a program; it has no specs.
// Proves: that it is safe and ends. Assumes the contracts of std.
#![tactic(auto)]

ghost use Rattle.std.specs.Io.{ReadsAtMost};

mod building;
mod cases;
mod chains;
mod line_words;
mod lines;
mod queries;

use crate::lines::Line;
use std::io::Read;
use std::{fmt, io};

// The list is at most so many blocks of so many bytes, and no line of it goes from one block into the next.
const BLOCKS: usize = 8;

const BLOCK: usize = 262_144;

// Past this many, lines are no more counted.
const COUNTED: u64 = 1_000_000;

// How many lines were replayed, and how many differed.
#[derive(Clone, Copy, Default)]
struct Replayed {
    replayed: u64,
    differed: u64,
}

impl Replayed {
    fn count(&mut self, right: bool) {
        if self.replayed <= COUNTED && self.differed <= COUNTED {
            self.replayed += 1;
            self.differed += u64::from(!right);
        }
    }
}

impl fmt::Display for Replayed {
    fn fmt<W: fmt::Write>(&self, f: &mut fmt::Formatter<W>) -> fmt::Result {
        let Replayed { replayed, differed } = *self;
        write!(f, "{replayed} replayed, {differed} differed")
    }
}

// A line with no words is passed over.
fn replay_lines(tally: &mut [u32; 128], text: &[u8], all: &mut Replayed) {
    let mut line = Line::empty();
    let lines = text.split(|byte| *byte == b'\n');
    for bytes in lines.filter(|bytes| !bytes.is_empty()) {
        line.read(bytes);
        let words = line.words();
        if !words.is_empty() {
            all.count(cases::right(tally, words));
        }
    }
}

// Reads until the space is full or the input ends, and says how many bytes it put at the start of the space.
fn read_full(input: &mut impl Read, space: &mut [u8]) -> io::Result<usize>
    ensures { ReadsAtMost result space.new }
{
    let mut done = 0;
    while done < space.len() {
        match input.read(&mut space[done..])? {
            0 => break,
            n => done += n,
        }
    }
    Ok(done)
}

fn replay(input: &mut impl Read) -> io::Result<Replayed> {
    let mut all = Replayed::default();
    let mut tally = [0; 128];
    let mut block = [0; BLOCK];
    for _ in 0..BLOCKS {
        let n = read_full(input, &mut block)?;
        replay_lines(&mut tally, &block[..n], &mut all);
    }
    Ok(all)
}

fn main(rt: HostRuntime) -> io::Result<()> {
    let all = replay(&mut rt.reader())?;
    println!(rt; "{all}")
}
