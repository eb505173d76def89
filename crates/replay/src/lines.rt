// Lines of decimal numbers.
ghost use Rattle.std.specs.Prelude.{◌≤◌};

// A number by its digits: of more than 13 the last ones, and of those the low 32 bits.
fn number(digits: &[u8]) -> u32 {
    let value = digits.iter().fold(0, |value: u64, digit| {
        value % 1_000_000_000_000 * 10 + u64::from(digit.saturating_sub(b'0'))
    });
    (value % 4_294_967_296) as u32
}

// The words of a line: its numbers, whatever stands between them, but those past the first 1,024.
#[derive(Clone, Copy)]
pub struct Line {
    words: [u32; 1024],
    count: usize,
    ghost bounded: { count ≤ 1024 },
}

impl Line {
    pub fn empty() -> Line {
        Line {
            words: [0; 1024],
            count: 0,
        }
    }

    // Reads a line in place of the one before. (Each line that had room of its own would have all of it cleared, an empty line too.)
    pub fn read(&mut self, text: &[u8]) {
        let mut numbers = text
            .split(|byte| !byte.is_ascii_digit())
            .filter(|digits| !digits.is_empty())
            .map(number);
        for count in 0..1024 {
            match numbers.next() {
                Some(number) => self.words[count] = number,
                None => {
                    self.count = count;
                    return;
                }
            }
        }
        self.count = 1024;
    }

    pub fn words(&self) -> &[u32] {
        &self.words[..self.count]
    }
}
