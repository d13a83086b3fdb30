// What is proved of the calls' rules. No code of the engine runs here; the function names in its contract what is proved of the definitions.
ghost use Rattle.calls.specs.Law.{OneVerdict, OneReply, OnePlay};

// A table has one verdict, a call on a world one answer and one world after it, and so has a list of calls.
pub fn each_call_has_one_reply() -> u8
    ensures verdict { OneVerdict }
    ensures reply { OneReply }
    ensures play { OnePlay }
{
    0
}
