// What is proved of the walk: it accepts exactly what the typing rules give a type, within the limits, and lays the translation's code. No code of the engine runs here; each function names in its contract what is proved of the definitions.
// Stays one function for each promise: the documents name a promise by its function, and one with many clauses would be no plainer.
#![tactic(auto)]

ghost use Rattle.verdict.specs.Verdict.{AcceptsWhatIsTyped, TypedWhereAccepted};
ghost use Rattle.verdict.specs.LawfulCode.{LawfulCode};

// What has a type, within the limits on names, is accepted, with that type and its translation.
pub fn accepts_what_is_typed() -> u8
    ensures { AcceptsWhatIsTyped }
{
    0
}

// What is accepted has that type, within the limits on names, and its code is its translation.
pub fn typed_where_accepted() -> u8
    ensures { TypedWhereAccepted }
{
    0
}

// The translation of what has a type, within the limits, is lawful code.
pub fn lays_lawful_code() -> u8
    ensures { LawfulCode }
{
    0
}
