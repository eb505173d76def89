// joined: a law of every admitted answer of `run_tbr` and `query`: where a ride was boarded, the stop has a label early enough for it. There is no
// code here; it is a crate apart from `model`, whose wrong statements each check all of that crate.
// Place: the model.
// Specs (a claim): the law (Joined).
// Proves: without arc flags in use each ride departs no sooner than the change time after the arrival of a label of the stop where it was boarded, in
// the ride's row or a lower one (`query_joined`, `run_tbr_joined`); with or without them no sooner than that label (`query_joined_departures`,
// `run_tbr_joined_departures`).
// Assumes nothing.

#![tactic(auto)]
