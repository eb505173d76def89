// answer_laws: what every admitted answer of `run_tbr` and `query` keeps, in both modes, whatever the day. There is no code here; it is a crate apart
// from `model`, whose wrong statements each check all of that crate.
// Place: the model.
// Specs (claims): the laws of labels, candidates, total and scans (Lawful), how often a trip is queued (Queue).
// Proves: bounds of all times and shifts, what each label says, how labels and candidates are ordered (Answers `query_lawful`, `run_tbr_lawful`); that
// reached lists fit (Reached); that the segment queue never fills without frequency trips (Queue `queue_never_fills`); what "no way" says, and that
// without arc flags no segment is queued (Calls).
// Assumes nothing.

#![tactic(auto)]
