// Printed runs: the lines that panelrun prints are those of a run's answers, and demand 3 holds of that run. Definitions and a theorem, no code: the
// functions that print are `logrun::open` and `logrun::run_piece`. Uses `logrun` and `runs`.

#![tactic(auto)]
