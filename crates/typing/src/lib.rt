// The typing rules: which rule sets have a type, and what they resolve to. No code of the engine runs here.
#![tactic(auto)]
