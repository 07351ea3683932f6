// What the dispatcher's rules come to: one that waits is polled within 2n picks, and the sentences of the request as laws of every run. Definitions and theorems,
// no code: the functions that they speak of are `dispatcher::register`, `report` and `pick`. Uses `dispatcher`.

#![tactic(auto)]
