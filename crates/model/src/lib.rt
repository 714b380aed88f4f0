// The rules of the papers over a model: no function, only definitions and theorems.
#![tactic(auto)]
