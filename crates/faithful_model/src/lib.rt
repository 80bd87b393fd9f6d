// Which slots mean under every save what is read back of them: definitions and theorems, no code of its own.
#![tactic(auto)]
