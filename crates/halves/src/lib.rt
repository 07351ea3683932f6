// No mark, then it was not the rounding: the marks of the answer beside a firmware that rounds halves upward. Definitions and a theorem, no code: the functions
// that it speaks of are `integers::round_div`, `reading::read` and `panel::advance`. Uses `panel`.

#![tactic(auto)]
