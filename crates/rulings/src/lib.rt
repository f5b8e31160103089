// The rulings of document 01 as one proved list: see specs/.
#![tactic(auto)]
