// query_types: the structs that a query hands on by value, and the layout of its workspace.
// Place: the search; every crate of it rests on this one.
// Specs: where each section of the working numbers begins, and how many numbers there are in all (Layout; the size is a claim, a caller lends it).
// Proves: each section begins where Layout says.
// Assumes nothing.
#![tactic(auto)]

ghost use Rattle.std.specs.Prelude.{◌≡◌, ◌≤◌};
ghost use Rattle.query_types.specs.Layout.{stamps_at, reach_at, rest_at, positions_at, fifo_at, events_at, trip_stamps_at, boarded_offsets_at};
ghost use Rattle.query_types.specs.Layout.{boarded_departures_at, line_stamps_at, heads_at, links_at, least_at, work_size, lay_for, Few};

use door::Settings;
use tables::Counts;

// How many stops, trips and lines, and where the list of reached stops that is being filled and the other one begin.
#[derive(Clone, Copy)]
pub struct Lay {
    pub stops: usize,
    pub trips: usize,
    pub lines: usize,
    pub list: usize,
    pub other: usize,
}

// The best total so far, how many stops the list has, how many segments the queue has, and whether one did not fit.
#[derive(Clone, Copy)]
pub struct Head {
    pub best: u32,
    pub count: usize,
    pub queued: usize,
    pub full: bool,
}

// A segment of a trip: where it is boarded, and its time shift as bits.
#[derive(Clone, Copy)]
pub struct Seg {
    pub trip: u32,
    pub offset: u32,
    pub stop: u32,
    pub shift: u32,
}

// A ride: stamp, trip, boarding stop and offset, time shift.
#[derive(Clone, Copy)]
pub struct Ride {
    pub stamp: u32,
    pub trip: u32,
    pub stop: u32,
    pub offset: u32,
    pub shift: u32,
}

// What of a query boarding goes by: wanted modes (seven bits, 0 means all), wheelchair, the delay margin, and how many trips
// of a line are tried for a transfer.
#[derive(Clone, Copy)]
pub struct Terms {
    pub modes: u32,
    pub wheelchair: bool,
    pub margin: u32,
    pub line_scan: u32,
}

// Where the lines' tables stand: how many lines, each trip's line, the lines' runs and entries in `built`; positions and FIFO
// flags in `work`.
#[derive(Clone, Copy)]
pub struct Lined {
    pub lines: usize,
    pub runs: usize,
    pub entries: usize,
    pub positions: usize,
    pub fifo: usize,
}

// The settings, and how many there are of each.
#[derive(Clone, Copy)]
pub struct QueryCounts {
    pub settings: Settings,
    pub timetable: Counts,
    pub cells: usize,
    pub patterns: usize,
    pub lines: usize,
    pub entries: usize,
    pub departures: usize,
    pub transfers: usize,
    pub delays: usize,
    pub stop_rows: usize,
    pub origins: usize,
    pub egress: usize,
}

// How long each slice is that a query writes.
#[derive(Clone, Copy)]
pub struct Lengths {
    pub labels: usize,
    pub label_distances: usize,
    pub work: usize,
    pub queue_a: usize,
    pub queue_b: usize,
    pub candidates: usize,
}

// Where the tables of a query with arc flags stand, and what they are asked: the lines' tables, the query's terms, how many patterns,
// the words of the target cells; where the transfer runs begin in `built`, and the events before each trip in `work`.
#[derive(Clone, Copy)]
pub struct Net {
    pub lined: Lined,
    pub terms: Terms,
    pub patterns: usize,
    pub target: [u64; 8],
    pub runs: usize,
    pub events: usize,
}

// What a query computes once: its counts, where its numbers stand in the workspace, the tables that transfers read and what they are asked, whether
// arc flags are in use, and the change time.
#[derive(Clone, Copy)]
pub struct Context {
    pub counts: QueryCounts,
    pub lay: Lay,
    pub net: Net,
    pub flagged: bool,
    pub change: u32,
}

// A trip that is scanned: its delay row, the ride.
#[derive(Clone, Copy)]
pub struct Scan {
    pub context: Context,
    pub adj: Option<usize>,
    pub ride: Ride,
}

// One round's ride phase: its stamp, the change time before a boarding in it.
#[derive(Clone, Copy)]
pub struct Phase {
    pub context: Context,
    pub stamp: u32,
    pub change: u32,
}

// A round's number, and whether it is even: whether it reads the first half of the queue and fills the second.
#[derive(Clone, Copy)]
pub struct Turn {
    pub round: u32,
    pub even: bool,
}

// A stop whose departures are scanned: from which time on, and whether a frequency trip is listed there.
#[derive(Clone, Copy)]
pub struct StopScan {
    pub stop: u32,
    pub after: u32,
    pub has_freq: bool,
}

// The layout for a timetable of these counts and so many lines.
pub fn lay_for(c: Counts, lines: usize) -> Lay
    requires stops_bound { c.stops ≤ 4096 }
    requires trips_bound { c.trips ≤ 4096 }
    ensures { result ≡ lay_for c lines }
{
    let list = c.stops * 2 + c.trips;
    let other = list + (c.stops + 64);
    Lay {
        stops: c.stops,
        trips: c.trips,
        lines,
        list,
        other,
    }
}

// Where each stop's stamp begins.
pub fn stamps_at(lay: Lay) -> usize
    ensures { result ≡ stamps_at lay }
{
    lay.stops
}

// Each trip's segment reach.
pub fn reach_at(lay: Lay) -> usize
    requires { Few lay }
    ensures { result ≡ reach_at lay }
{
    lay.stops * 2
}

// The egress table.
pub fn rest_at(lay: Lay) -> usize
    requires { Few lay }
    ensures { result ≡ rest_at lay }
{
    lay.stops * 4 + lay.trips + 128
}

// Each trip's position in its line.
pub fn positions_at(lay: Lay) -> usize
    requires { Few lay }
    ensures { result ≡ positions_at lay }
{
    lay.stops * 5 + lay.trips + 128
}

// Each line's FIFO flag.
pub fn fifo_at(lay: Lay) -> usize
    requires { Few lay }
    ensures { result ≡ fifo_at lay }
{
    lay.stops * 5 + lay.trips * 2 + 128
}

// The events before each trip.
pub fn events_at(lay: Lay) -> usize
    requires { Few lay }
    ensures { result ≡ events_at lay }
{
    lay.stops * 5 + lay.trips * 2 + lay.lines + 128
}

// Each boarded trip's stamp, the offset where it was boarded, the departure there.
pub fn trip_stamps_at(lay: Lay) -> usize
    requires { Few lay }
    ensures { result ≡ trip_stamps_at lay }
{
    lay.stops * 5 + lay.trips * 3 + lay.lines + 128
}

pub fn boarded_offsets_at(lay: Lay) -> usize
    requires { Few lay }
    ensures { result ≡ boarded_offsets_at lay }
{
    lay.stops * 5 + lay.trips * 4 + lay.lines + 128
}

pub fn boarded_departures_at(lay: Lay) -> usize
    requires { Few lay }
    ensures { result ≡ boarded_departures_at lay }
{
    lay.stops * 5 + lay.trips * 5 + lay.lines + 128
}

// Each line's stamp, the first trip of its chain, each trip's next one, each trip's least offset.
pub fn line_stamps_at(lay: Lay) -> usize
    requires { Few lay }
    ensures { result ≡ line_stamps_at lay }
{
    lay.stops * 5 + lay.trips * 6 + lay.lines + 128
}

pub fn heads_at(lay: Lay) -> usize
    requires { Few lay }
    ensures { result ≡ heads_at lay }
{
    lay.stops * 5 + lay.trips * 6 + lay.lines * 2 + 128
}

pub fn links_at(lay: Lay) -> usize
    requires { Few lay }
    ensures { result ≡ links_at lay }
{
    lay.stops * 5 + lay.trips * 6 + lay.lines * 3 + 128
}

pub fn least_at(lay: Lay) -> usize
    requires { Few lay }
    ensures { result ≡ least_at lay }
{
    lay.stops * 5 + lay.trips * 7 + lay.lines * 3 + 128
}

// How long the workspace is.
pub fn work_size(lay: Lay) -> usize
    requires { Few lay }
    ensures { result ≡ work_size lay }
{
    lay.stops * 5 + lay.trips * 8 + lay.lines * 3 + 128
}
