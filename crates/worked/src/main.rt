// worked: the program behind ./run. By the exported calls alone it answers the worked examples of document 01's leaves,
// builds and asks Timetable K (k), a second one (second) and a larger one (town), and prints the answers with their legs for a
// person to read; then builds Timetable K under other settings, and prints what the tally shows (screens). The gate holds what it
// prints to the file `stdout`.
// Place: a program; it has no specs.
// Proves: that it is safe and ends. Assumes the contracts of std.
#![tactic(auto)]

mod asking;
mod building;
mod k;
mod legs;
mod screens;
mod second;
mod telling;
mod town;

use crate::telling::{Fault, Refused, admitted, told, value};
use cell_bitset::CellBitSet;
use cell_set_call::CellSetAnswer;
use door::{Answer, Settings};
use frequency_call::FreqAnswer;
use std::{fmt, io};

// A value, or the question that refused it.
fn answer(rt: &impl Print, answer: Answer) -> io::Result<()> {
    match value(answer) {
        Ok(n) => println!(rt; "{n}"),
        Err(refused) => println!(rt; "{refused}"),
    }
}

fn rounds(
    rt: &impl Print,
    tally: &mut [u32; 128],
    screen: u32,
    settings: Settings,
    wanted: u32,
    transfers: u32,
) -> Result<(), Fault> {
    let rounds = value(exports::savoiky_max_rounds(tally, screen, settings, wanted, transfers))?;
    println!(rt; "  wanted {wanted}, transfers {transfers}: {rounds} rounds")?;
    Ok(())
}

// How a boarding of a frequency trip waits: its answer, and the headway of its window.
#[derive(Clone, Copy)]
struct Waiting {
    at: FreqAnswer,
    headway: u32,
}

// Every so often, so long to wait: the headway in minutes where it is whole minutes, else in seconds; the wait in minutes, a begun
// one counted. Then where the run stands; need, where it is above zero, by the headway.
impl fmt::Display for Waiting {
    fn fmt<W: fmt::Write>(&self, f: &mut fmt::Formatter<W>) -> fmt::Result {
        let FreqAnswer {
            window,
            run,
            quotient,
            remainder,
            wait,
            ..
        } = self.at;
        let headway = self.headway;
        let minutes = wait.div_ceil(60);
        if headway % 60 == 0 {
            let every = headway / 60;
            write!(
                f,
                "every {every} minutes, {minutes} to wait (window {window}, run {run}, "
            )?;
        } else {
            write!(
                f,
                "every {headway} seconds, {minutes} min to wait (window {window}, run {run}, "
            )?;
        }
        if quotient != 0 || remainder != 0 {
            write!(f, "need {quotient} * {headway} + {remainder}, ")?;
        }
        write!(f, "wait {wait})")
    }
}

// The boarding of an answer, where there is one.
fn found(answer: FreqAnswer) -> Result<Option<FreqAnswer>, Refused> {
    admitted(answer.code)?;
    Ok((answer.found != 0).then_some(answer))
}

// A boarding with its waiting (document 02, T-02), of a template from 600, boarding at 660. A window is its start, end and headway.
fn boarding(
    rt: &impl Print,
    tally: &mut [u32; 128],
    screen: u32,
    settings: Settings,
    count: u32,
    windows: &[[u32; 3]],
    wanted: u32,
) -> Result<(), Fault> {
    let Some(at) = found(exports::savoiky_freq_board(
        tally,
        screen,
        settings,
        count,
        windows.as_flattened(),
        600,
        660,
        wanted,
    ))?
    else {
        println!(rt; "  wanted {wanted}: none")?;
        return Ok(());
    };
    let departure = at.departure;
    let shift = at.time_shift_s.cast_signed();
    let [_, _, headway] = windows.get(at.window as usize).copied().unwrap_or([0; 3]);
    let waiting = Waiting { at, headway };
    println!(rt; "  wanted {wanted}: departs {departure}, shift {shift}; {waiting}")?;
    Ok(())
}

fn walk(
    rt: &impl Print,
    tally: &mut [u32; 128],
    screen: u32,
    settings: Settings,
    name: &str,
    duration: u32,
    mode: u32,
    wheelchair: u32,
) -> io::Result<()> {
    print!(rt; "  {name}: ")?;
    answer(
        rt,
        exports::savoiky_walk_duration(tally, screen, settings, duration, mode, wheelchair),
    )
}

// The set that a call hands back.
fn set(answer: CellSetAnswer) -> Result<CellBitSet, Refused> {
    admitted(answer.code)?;
    Ok(answer.set)
}

fn cell(
    rt: &impl Print,
    tally: &mut [u32; 128],
    screen: u32,
    settings: Settings,
    cell: u32,
) -> Result<(), Fault> {
    let made = set(exports::savoiky_cell_bitset_new(tally, screen, settings, 65))?;
    let with = set(exports::savoiky_cell_bitset_set_bit(tally, screen, settings, made, cell))?;
    let held = value(exports::savoiky_cell_bitset_get_bit(tally, screen, settings, with, cell))?;
    let fate = if held == 1 { "kept" } else { "dropped" };
    println!(rt; "  cell {cell} is {fate}")?;
    Ok(())
}

fn clock(
    rt: &impl Print,
    tally: &mut [u32; 128],
    screen: u32,
    settings: Settings,
    hour: u32,
    minute: u32,
    second: u32,
) -> io::Result<()> {
    print!(rt; "  {hour}:{minute:02}:{second:02} is ")?;
    answer(
        rt,
        exports::savoiky_service_second(tally, screen, settings, hour, minute, second),
    )
}

fn query_rounds(
    rt: &impl Print,
    tally: &mut [u32; 128],
    screen: u32,
    settings: Settings,
) -> io::Result<()> {
    println!(rt; "Rounds of a query")?;
    for (wanted, transfers) in [(0, 0), (0, 3), (20, 0)] {
        told(rt, rounds(rt, tally, screen, settings, wanted, transfers))?;
    }
    Ok(())
}

fn boardings(
    rt: &impl Print,
    tally: &mut [u32; 128],
    screen: u32,
    settings: Settings,
) -> io::Result<()> {
    println!(rt;
        "Frequency boarding: window 600 to 1200 every 300, template from 600, boarding at 660"
    )?;
    for wanted in [660, 661, 400, 960, 961] {
        told(
            rt,
            boarding(rt, tally, screen, settings, 1, &[[600, 1200, 300]], wanted),
        )?;
    }
    println!(rt; "The same, window 600 to 7200 every 600")?;
    told(
        rt,
        boarding(rt, tally, screen, settings, 1, &[[600, 7200, 600]], 1020),
    )?;
    println!(rt; "The same, windows 600 to 1200 every 300 and 1200 to 1800 every 90")?;
    let two = [[600, 1200, 300], [1200, 1800, 90]];
    told(rt, boarding(rt, tally, screen, settings, 2, &two, 1300))
}

fn arrival(
    rt: &impl Print,
    tally: &mut [u32; 128],
    screen: u32,
    settings: Settings,
) -> io::Result<()> {
    println!(rt;
        "Arrival 200, shift 50, trip delay 10, only a departure delay of 40 given at the stop"
    )?;
    print!(rt; "  arrives at ")?;
    answer(
        rt,
        exports::savoiky_effective_arrival(tally, screen, settings, 200, 50, 10, 1, 0),
    )
}

fn walks(
    rt: &impl Print,
    tally: &mut [u32; 128],
    screen: u32,
    settings: Settings,
) -> io::Result<()> {
    println!(rt; "Walks of 30 seconds in a wheelchair query")?;
    for (name, mode) in [("stairs", 2), ("moving sidewalk", 3), ("pathway mode 8", 8)] {
        walk(rt, tally, screen, settings, name, 30, mode, 1)?;
    }
    Ok(())
}

fn cells(
    rt: &impl Print,
    tally: &mut [u32; 128],
    screen: u32,
    settings: Settings,
) -> io::Result<()> {
    println!(rt; "A set of 65 cells")?;
    for number in [127, 128] {
        told(rt, cell(rt, tally, screen, settings, number))?;
    }
    Ok(())
}

fn clocks(
    rt: &impl Print,
    tally: &mut [u32; 128],
    screen: u32,
    settings: Settings,
) -> io::Result<()> {
    println!(rt; "Service seconds of clock readings")?;
    clock(rt, tally, screen, settings, 25, 10, 0)?;
    clock(rt, tally, screen, settings, 48, 0, 0)
}

fn leaves(
    rt: &impl Print,
    tally: &mut [u32; 128],
    screen: u32,
    settings: Settings,
) -> io::Result<()> {
    println!(rt; "Timetable K: worked examples of the leaves\n")?;
    query_rounds(rt, tally, screen, settings)?;
    boardings(rt, tally, screen, settings)?;
    arrival(rt, tally, screen, settings)?;
    walks(rt, tally, screen, settings)?;
    cells(rt, tally, screen, settings)?;
    clocks(rt, tally, screen, settings)
}

// The calls of the leaves and of Timetable K are for screen 0, those of the second timetable for screen 1, those of the larger one for screen 2; the
// last one is for a number that is no screen.
fn main(rt: HostRuntime) -> io::Result<()> {
    let settings = Settings::default();
    let mut tally = [0u32; 128];
    leaves(&rt, &mut tally, 0, settings)?;
    told(&rt, k::run(&rt, &mut tally, 0, settings))?;
    told(&rt, second::run(&rt, &mut tally, 1, settings))?;
    told(&rt, town::run(&rt, &mut tally, 2, settings))?;
    k::houses(&rt, &mut tally, 0, settings)?;
    let before = screens::show_tally(&rt, &tally)?;
    println!(rt; "A call for screen 64")?;
    told(&rt, rounds(&rt, &mut tally, 64, settings, 0, 0))?;
    screens::show_since(&rt, &tally, before)
}
