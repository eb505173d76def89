// built_lines: laws of the tables that our building calls write, one on top of the other. There is no code here.
// Place: the model; it rests on the definitions of tables, not on calls.
// Specs (a claim): a line table that lists as built; a trip's place in its line.
// Proves, of any timetable: what the lines call writes lists as built; built lines list every trip once, so that their layout is
// what it should be: a trip's position is its place, and in a FIFO line a trip with a lower position is nowhere later.
// Assumes nothing.

#![tactic(auto)]
