// The words of a line, read one after the other.
ghost use Rattle.std.specs.Prelude.{◌<◌, ◌≤◌, length};

// The words that are still to be read; past the end every word is 0.
#[derive(Clone, Copy)]
pub struct Words<'a>(pub &'a [u32]);

// A word as a number of words; a line has fewer than 1,024.
pub fn length_of(word: u32) -> usize
    ensures { result < 1024 }
{
    word as usize % 1024
}

// The first N words, with zeros past the end.
pub fn padded<const N: usize>(words: &[u32]) -> [u32; N] {
    let mut first = [0; N];
    for (to, word) in first.iter_mut().zip(words) {
        *to = *word;
    }
    first
}

impl<'a> Words<'a> {
    // The next n words, or as many as there are.
    pub fn part(&mut self, n: usize) -> &'a [u32]
        ensures { length result.now ≤ n }
    {
        let Words(words) = *self;
        let (part, rest) = words.split_at(n.min(words.len()));
        self.0 = rest;
        part
    }

    // The next N words.
    pub fn take<const N: usize>(&mut self) -> [u32; N] {
        padded(self.part(N))
    }

    // The next word.
    pub fn word(&mut self) -> u32 {
        let [word] = self.take::<1>();
        word
    }

    // The next N words, if there are as many.
    pub fn exact<const N: usize>(&mut self) -> Option<[u32; N]> {
        let (words, rest) = self.0.split_first_chunk::<N>()?;
        self.0 = rest;
        Some(*words)
    }

    // The next n words, if there are as many.
    pub fn section(&mut self, n: usize) -> Option<&'a [u32]> {
        let (section, rest) = self.0.split_at_checked(n)?;
        self.0 = rest;
        Some(section)
    }

    // The words that the next one counts, if the line has them.
    pub fn counted(&mut self) -> Option<&'a [u32]> {
        let [count] = self.exact::<1>()?;
        self.section(length_of(count))
    }

    // Are these the next words?
    pub fn are(&mut self, words: &[u32]) -> bool {
        let stated = self.part(words.len());
        let (first, past) = words.split_at(stated.len());
        first == stated && past.iter().all(|word| *word == 0)
    }
}
