// Sessions: lists of events, bursts and frames from a start, and demand 3 of every one. Definitions and theorems, no code: the functions that a session
// goes through are `registers::start`, `panel::advance`, `burst::advance` and `registers::answer`. Uses `registers`, `burst` and `runs`.

#![tactic(auto)]
