// What the box's tally shows: the calls of each screen, and of all screens together.
ghost use Rattle.std.specs.Prelude.{◌≤◌, length};

use std::{fmt, io};

// The answered and the refused calls of all screens.
#[derive(Clone, Copy, PartialEq, Eq)]
pub struct Sums {
    pub answered: u64,
    pub refused: u64,
}

impl fmt::Display for Sums {
    fn fmt<W: fmt::Write>(&self, f: &mut fmt::Formatter<W>) -> fmt::Result {
        let Sums { answered, refused } = *self;
        write!(f, "{answered} answered, {refused} refused")
    }
}

// The calls of all screens, by those of each.
fn sum(counts: &[u32]) -> u64
    requires { length counts.now ≤ 64 }
{
    counts.iter().map(|&n| u64::from(n)).sum()
}

// The tally holds the answered calls of screens 0 to 63, then the refused ones.
impl From<&[u32; 128]> for Sums {
    fn from(tally: &[u32; 128]) -> Sums {
        let (answered, refused) = tally.split_at(64);
        Sums {
            answered: sum(answered),
            refused: sum(refused),
        }
    }
}

// Each screen that a call was made for, and all together.
pub fn show_tally(rt: &impl Print, tally: &[u32; 128]) -> io::Result<Sums> {
    println!(rt; "\nThe box's tally: the calls of each screen")?;
    let (answered, refused) = tally.split_at(64);
    for (screen, (answered, refused)) in answered.iter().zip(refused).enumerate() {
        if *answered != 0 || *refused != 0 {
            println!(rt; "  screen {screen}: {answered} answered, {refused} refused")?;
        }
    }
    let all = Sums::from(tally);
    println!(rt; "  all screens: {all}")?;
    Ok(all)
}

// Was a call counted since the sums were these?
pub fn show_since(rt: &impl Print, tally: &[u32; 128], before: Sums) -> io::Result<()> {
    let now = Sums::from(tally);
    let counted = if now == before {
        "counted nowhere"
    } else {
        "counted"
    };
    println!(rt; "  {counted}\n  all screens: {now}")
}
