// Safety: evaluation of a rule set that the typing rules admit is never in trouble, and what it resolves to is lawful. No code of the engine runs here; its functions name what is proved of the definitions.
// Stays one function for each promise: the documents name a promise by its function, and one with many clauses would be no plainer.
#![tactic(auto)]

ghost use Rattle.safety.specs.Safety.{Safe};
ghost use Rattle.safety.specs.Lawful.{LawfulWhereTyped};

// A rule set that has a type never comes to trouble, at any depth and with any host; its value is of its type.
pub fn never_in_trouble() -> u8
    ensures { Safe }
{
    0
}

// A rule set that has a type and keeps to the limits resolves to a lawful one.
pub fn lawful_where_typed() -> u8
    ensures { LawfulWhereTyped }
{
    0
}
