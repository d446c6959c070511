// An attempt tries its choices one after another: definitions and laws.
#![tactic(auto)]
