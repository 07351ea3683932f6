// Forward means forward: where slots and points say so, digits never run back while the carriage moves on. Definitions and a theorem, no code: the functions
// that it speaks of are `reading::read` and `panel::advance`. Uses `runs`.

#![tactic(auto)]
