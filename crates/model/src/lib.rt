// model: the whole of `run_tbr` (tbr.rs) as functions on values, free of memory, and what a guest may rely on. There is no code here;
// the code of the query is proved equal to it.
// Place: the model; it rests on leaves and tables.
// Specs: the tables and the query (Tables), what the questions at the door give (Door), the search function by function, in both
// modes, with `run_tbr` and `query` (Search), plain day, steady day, journey, way and demand 3 (Promise). All but Door are claims or what they
// rest on. Instances and worked rows are in `plain_days`, laws of every admitted answer in `answer_laws`.
// Proves: demand 3 of `query` on every steady day, by effective times, and of `run_tbr` wherever no arc flags are used (Demand3 `steady`,
// `steady_rust`); that the candidates are Pareto-complete (`steady_pareto`); that delays of whole trips and skipped stops make a steady day
// (TripDelays `trip_delays_steady`); that a plain day is a steady one (`steady_of`) whose effective times are the scheduled ones
// (`plain_times`), and so all three of every plain day, by scheduled times (`demand3`, `demand3_rust`, `pareto`); when the two calls agree
// (Switch).
// How: a plain search (PlainSearch) that does what the full one does on a steady day (Delayed, Simulation) covers every journey
// (Coverage to Optimal) and reaches a stop only by a way (Ways, PlainTotals).
// Assumes nothing.

#![tactic(auto)]
