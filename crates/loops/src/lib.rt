// loops: loops, searches and whole-table checks as functions on values, for the crates above.
// Place: the foundation.
// Specs (claims): a counted loop (`range`), a check of every number (`every_in`), a search (`first_in`), counting and tabulating.
// Proves: one law for each need of such a loop (as it begins, one turn, each way out), what a check or a search says
// of each number, and that halving an interval finds the first number that passes a test that stays passed.
// Assumes nothing. There is no code here.

#![tactic(auto)]
