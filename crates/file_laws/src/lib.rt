// The laws of the task file: no function, only theorems over the definitions of the check, find and put.
#![tactic(auto)]
