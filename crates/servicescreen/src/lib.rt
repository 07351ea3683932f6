// The service screen of the analog line: what the record of the drive is in every run, in whole numbers. Definitions and a theorem, no code: the functions that it
// speaks of are `driverecord::updated`, `inputs::act` and `panel::advance`. Uses `runs`.

#![tactic(auto)]
