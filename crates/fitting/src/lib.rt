// Which head and rows a message can carry, told without spelling and reading it: definitions, and laws about them.

#![tactic(auto)]
