// A walk at a block with a last accepted shop, over the calls as they were made and answered: theorems only (specs/).
#![tactic(auto)]
