// The check of a lent list of rows: its definition and its laws. The function is the C library's awelodrun_check_list.
#![tactic(auto)]
