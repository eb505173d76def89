// words: a part of a list of words filled.
// Place: the foundation.
// Specs (inner): a part of a slice filled, all else as it came (Filled).
// Proves: a list of equal words is a filled one, and what stands where in it.
// Assumes nothing. There is no code here: `fill`, `min` and `max` are the library's.

#![tactic(auto)]
