// The bits of a number, numbered from 0: what shifts, masks and counts of zeros do to each of them. One definition and its laws, no code.
// It uses no other crate.

#![tactic(auto)]
