// Definitions of boards, workers and their turns.
#![tactic(auto)]
