// The meaning of an admitted rule set: its resolved tree, its code, and its evaluation. No code of the engine runs here; its functions name what is proved of the definitions.
#![tactic(auto)]
