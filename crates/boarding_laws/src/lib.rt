// boarding_laws: laws of a boarding inside a query, and of the search that meets it (document 02, T-02). There is no code here; it is a
// crate apart from `model`, whose wrong statements each check all of that crate.
// Place: the model.
// Specs (for laws; no contract rests on them): what a boarding tells (Waiting); boarding as it was before T-02 (Boarding), the search
// over it (Search), and that today's agree with them (Claims).
// Proves: of every boarding of a query the wait is departure - wanted time; one of a trip without windows has no headways, one of a
// frequency trip is its earliest run with its waiting; target resolving hands it on as it is (`query_boards`). A boarding has the
// departure, shift, window and run that it had, and `query` and `run_tbr` answer every query as they did (`as_before`).
// Assumes nothing.

#![tactic(auto)]
