// promise: the three demands of the exported calls, from the building calls to the query. There is no code here: the contracts of the calls (crates
// `query_call`, `frequency_call`, `lines_call`, `departures_call`, `transfers_call`) equate them with the outcomes that the claims are about.
// Place: above the calls; programs and auditors read it.
// Specs, all of them claims: what is claimed of a call (Claims); what ties the building calls' outcomes to what a query is lent (Chain); the
// demands themselves, one record (Demands).
// Proves: that record (Chain `the_demands`): demands 1, 2 and 3 and Pareto-completeness of the calls, on plain and on steady days (Demands); that
// what the building calls left is as a day asks and passes the query's door (Building, Transferred, Doors, Passing), whatever the bytes active and
// excluded were then (Alike, Changes), so that demand 3 holds at the end of the chain (Chain). Instances: Timetable K as lent slices (Instance), a
// steady day with delays (SteadyInstance), and both through the calls' outcomes (ChainInstance `whole_k`, `whole_d`).
// Assumes nothing.

#![tactic(auto)]
