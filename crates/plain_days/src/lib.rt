// plain_days: worked days of the model: Timetable K of document 01, a second day with walks, days with delays, and variants of them. There is no code
// here.
// Place: the model.
// Specs (for laws; no contract rests on them): the days, and tables as the building definitions make them (K).
// Proves: the worked rows of document 01, computed of the definitions as one tabulated check (Examples `worked`); that four of the days are
// plain days, so that demand 3 has instances (PlainDays); that `run_tbr` itself breaks demand 3 where flags are on and skip nothing
// (`rust_breaks`, `rust_breaks_short`); that K without transfers is a steady day with late and early trips and a skipped stop, and with times
// given at single stops (SteadyDays `steady_trip`, `steady_given`); that without any one condition of a steady day, missed by one second, the
// query breaks demand 3 (`needs_rides`, `needs_arrivals`, `needs_departures`, `needs_not_late`, `needs_not_early`, `needs_one_arrival`; of delays of
// whole trips also `needs_after_zero`).
// Assumes nothing.

#![tactic(auto)]
