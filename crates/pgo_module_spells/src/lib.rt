// Which texts spell a written module.
#![tactic(auto)]
