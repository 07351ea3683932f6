// Turntables across the encoder's end: what the count of a round loop is in every run, and how it stands to the rule before it. Definitions and theorems, no code:
// the functions that they speak of are `roundloop::counted`, `reading::basis_after` and `panel::advance`. Uses `runs`.

#![tactic(auto)]
