// What an edit does to the cells: definitions only.
#![tactic(auto)]
