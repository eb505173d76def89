// Lines of `run_tbr` and `query`: a search as it is lent, and what each of the two calls must answer and leave.
use crate::line_words::{Words, length_of, padded};
use door::Settings;
use query_reply::Reply;
use sizes::QuerySizes;

// What every word that is lent to be written holds before a call.
const LENT: u32 = 7;

// What a search is lent to read.
#[derive(Clone, Copy)]
pub struct Lent<'a> {
    pub sizes: QuerySizes,
    pub tables: &'a [u32],
    pub built: &'a [u32],
    pub transfers: &'a [u32],
    pub patterns: &'a [u8],
    pub distances: &'a [f64],
    pub query: &'a [u32],
}

// What it is lent to write.
#[derive(Drop)]
pub struct Areas<'a> {
    pub labels: &'a mut [u32],
    pub label_distances: &'a mut [f64],
    pub work: &'a mut [u32],
    pub queue_a: &'a mut [u32],
    pub queue_b: &'a mut [u32],
    pub candidates: &'a mut [u32],
}

// How a call ended: it answered, or had too short a queue, or refused what it was lent.
#[derive(Clone, Copy)]
enum Ending {
    Answered,
    QueueFull,
    Refused,
}

impl From<u32> for Ending {
    fn from(code: u32) -> Ending {
        match code {
            0 => Ending::Answered,
            8 => Ending::QueueFull,
            _ => Ending::Refused,
        }
    }
}

impl Ending {
    // What a word of labels, workspace and queue must be where the line does not say it: 0 if the call began to search, else as it came.
    fn word(self) -> u32 {
        match self {
            Ending::Answered => 0,
            Ending::QueueFull => 0,
            Ending::Refused => LENT,
        }
    }

    // The same of a word of the candidates: a queue that is too short leaves them as they came.
    fn candidate_word(self) -> u32 {
        match self {
            Ending::Answered => 0,
            Ending::QueueFull => LENT,
            Ending::Refused => LENT,
        }
    }
}

// What a call must answer and leave: code, total, stop and how many candidates; how many words of candidates, and those; how many
// labels, and those.
#[derive(Clone, Copy)]
pub struct Outcome<'a> {
    reply: [u32; 4],
    candidate_words: usize,
    candidates: Words<'a>,
    label_count: usize,
    labels: Words<'a>,
}

impl<'a> Outcome<'a> {
    // The next outcome on the line.
    pub fn read(words: &mut Words<'a>) -> Outcome<'a> {
        let reply: [u32; 4] = words.take();
        let [_, _, _, count] = reply;
        let candidate_words = 3 * length_of(count);
        let candidates = Words(words.part(candidate_words));
        let count = words.word();
        let label_count = length_of(count);
        let labels = Words(words.part(10 * label_count));
        Outcome {
            reply,
            candidate_words,
            candidates,
            label_count,
            labels,
        }
    }

    fn ending(self) -> Ending {
        let [code, ..] = self.reply;
        Ending::from(code)
    }

    // The candidates stand first, and every other word is as the ending says.
    fn has_candidates(self, candidates: &[u32]) -> bool {
        let Outcome {
            candidate_words,
            candidates: mut stated,
            ..
        } = self;
        let word = self.ending().candidate_word();
        match candidates.split_at_checked(candidate_words) {
            Some((rows, rest)) => {
                stated.are(rows)
                    && (rows.is_empty() || word == 0)
                    && rest.iter().all(|other| *other == word)
            }
            None => false,
        }
    }

    // The labels stand at their places, and every other word is as the ending says. They become 0.
    fn has_labels(self, labels: &mut [u32], distances: &mut [f64]) -> bool {
        let mut stated = self.labels;
        let mut right = true;
        for _ in 0..self.label_count {
            let place = length_of(stated.word());
            let row = stated.take::<8>();
            let metres = f64::from(stated.word());
            right = take_label(place, row, metres, labels, distances) && right;
        }
        let word = self.ending().word();
        right
            && labels.iter().all(|other| *other == word)
            && distances.iter().all(|other| *other == f64::from(word))
    }

    // Is the call's reply, and every word of what it was lent to write, what the outcome says?
    pub fn is_left(self, reply: Reply, areas: Areas<'_>) -> bool {
        let Areas {
            labels,
            label_distances,
            work,
            queue_a,
            queue_b,
            candidates,
        } = areas;
        let word = self.ending().word();
        self.reply == [reply.code, reply.total, reply.stop, reply.candidates]
            && self.has_candidates(candidates)
            && work.iter().all(|other| *other == word)
            && queue_a.iter().all(|other| *other == word)
            && queue_b.iter().all(|other| *other == word)
            && self.has_labels(labels, label_distances)
    }
}

// Does this label stand at this place among the labels? It becomes 0.
fn take_label(
    place: usize,
    label: [u32; 8],
    metres: f64,
    labels: &mut [u32],
    distances: &mut [f64],
) -> bool {
    let (rows, _) = labels.as_chunks_mut::<8>();
    let (Some(row), Some(distance)) = (rows.get_mut(place), distances.get_mut(place)) else {
        return false;
    };
    let right = *row == label && *distance == metres;
    *row = [0; 8];
    *distance = 0.0;
    right
}

// A search as the line has it: what is lent to be read, and how long what is lent to be written is: labels, their distances, workspace, the
// queue halves, candidates.
#[derive(Clone, Copy)]
struct Search<'a> {
    sizes: QuerySizes,
    tables: &'a [u32],
    built: &'a [u32],
    transfers: &'a [u32],
    query: &'a [u32],
    patterns: &'a [u32],
    distances: &'a [u32],
    lengths: [usize; 6],
}

fn sizes(words: [u32; 15]) -> QuerySizes {
    let [
        trips,
        windows,
        times,
        edges,
        stops,
        cells,
        patterns,
        lines,
        entries,
        transfers,
        departures,
        delays,
        stop_rows,
        origins,
        egress,
    ] = words;
    QuerySizes {
        trips,
        windows,
        times,
        edges,
        stops,
        cells,
        patterns,
        lines,
        entries,
        transfers,
        departures,
        delays,
        stop_rows,
        origins,
        egress,
    }
}

impl<'a> Search<'a> {
    // Counts and lengths stand first, then what the lengths are of; none where the line ends before.
    fn read(words: &mut Words<'a>) -> Option<Search<'a>> {
        let sizes = sizes(words.exact()?);
        let [tables, built, transfers, patterns, distances, query] = words.exact::<6>()?;
        let lengths = words.exact::<6>()?.map(length_of);
        Some(Search {
            sizes,
            tables: words.section(length_of(tables))?,
            built: words.section(length_of(built))?,
            transfers: words.section(length_of(transfers))?,
            query: words.section(length_of(query))?,
            patterns: words.section(length_of(patterns))?,
            distances: words.section(length_of(distances))?,
            lengths,
        })
    }
    // What the calls are lent to read; of patterns and distances as many as the line has, or as there is room for.
    fn lent(self, patterns: &'a [u8; 256], distances: &'a [f64; 64]) -> Lent<'a> {
        Lent {
            sizes: self.sizes,
            tables: self.tables,
            built: self.built,
            transfers: self.transfers,
            patterns: &patterns[..self.patterns.len().min(256)],
            distances: &distances[..self.distances.len().min(64)],
            query: self.query,
        }
    }
}

// Which of the two calls.
#[derive(Clone, Copy)]
enum Call {
    RunTbr,
    Query,
}

// Puts a search to `run_tbr`.
fn run_tbr(
    tally: &mut [u32; 128],
    screen: u32,
    settings: Settings,
    lent: Lent<'_>,
    areas: &mut Areas<'_>,
) -> Reply {
    exports::savoiky_run_tbr(
        tally,
        screen,
        settings,
        lent.sizes,
        lent.tables,
        lent.built,
        lent.transfers,
        lent.patterns,
        lent.distances,
        lent.query,
        areas.labels,
        areas.label_distances,
        areas.work,
        areas.queue_a,
        areas.queue_b,
        areas.candidates,
    )
}

// Puts a search to `query`.
pub fn query(
    tally: &mut [u32; 128],
    screen: u32,
    settings: Settings,
    lent: Lent<'_>,
    areas: &mut Areas<'_>,
) -> Reply {
    exports::savoiky_query(
        tally,
        screen,
        settings,
        lent.sizes,
        lent.tables,
        lent.built,
        lent.transfers,
        lent.patterns,
        lent.distances,
        lent.query,
        areas.labels,
        areas.label_distances,
        areas.work,
        areas.queue_a,
        areas.queue_b,
        areas.candidates,
    )
}

// Does the call answer and leave what is stated? The areas have these lengths. Where one has less room than that, the call refuses what it is
// lent, and the line differs.
fn is_right(
    tally: &mut [u32; 128],
    screen: u32,
    settings: Settings,
    call: Call,
    lent: Lent<'_>,
    lengths: [usize; 6],
    stated: Outcome<'_>,
) -> bool {
    let [l, d, w, a, b, c] = lengths;
    let mut areas = Areas {
        labels: &mut [LENT; 840][..l.min(840)],
        label_distances: &mut [f64::from(LENT); 105][..d.min(105)],
        work: &mut [LENT; 384][..w.min(384)],
        queue_a: &mut [LENT; 128][..a.min(128)],
        queue_b: &mut [LENT; 128][..b.min(128)],
        candidates: &mut [LENT; 40][..c.min(40)],
    };
    let reply = match call {
        Call::RunTbr => run_tbr(tally, screen, settings, lent, &mut areas),
        Call::Query => query(tally, screen, settings, lent, &mut areas),
    };
    stated.is_left(reply, areas)
}

// Are the answers of both calls those on the line? Patterns and distances are made of their words.
pub fn searched(
    tally: &mut [u32; 128],
    screen: u32,
    settings: Settings,
    mut words: Words<'_>,
) -> bool {
    let Some(s) = Search::read(&mut words) else {
        return false;
    };
    let patterns = padded::<256>(s.patterns).map(|word| (word % 256) as u8);
    let distances = padded::<64>(s.distances).map(f64::from);
    let lent = s.lent(&patterns, &distances);
    let stated = Outcome::read(&mut words);
    let ran = is_right(
        tally,
        screen,
        settings,
        Call::RunTbr,
        lent,
        s.lengths,
        stated,
    );
    let stated = Outcome::read(&mut words);
    let queried = is_right(
        tally,
        screen,
        settings,
        Call::Query,
        lent,
        s.lengths,
        stated,
    );
    ran && queried
}
