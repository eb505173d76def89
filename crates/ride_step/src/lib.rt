// ride_step: what the parts of the ride phase share. There is no code here.
// Place: the search; `departure_scan`, `ride_phase`, `search_begin` and `rounds` rest on it.
// Specs (inner): what is read (Laid), what boarding does to the state (Phase), what the parts of the phase need and do (Going).
// Proves: laws of these: what stays as it came (Keep), what a later part sees (Later), one part after the other (Riding, Scanned, Phased).
// Assumes nothing.

#![tactic(auto)]
