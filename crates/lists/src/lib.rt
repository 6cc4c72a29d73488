// Definitions and lemmas on lists that the theory of rows rests on: members, lists without repetition, rising lists, words.
#![tactic(auto)]
