// What is shown of tables and trees, each theorem named by a contract.
// Stays one function for each promise: the documents name a promise by its function, and one with many clauses would be no plainer.
ghost use Rattle.table.specs.Samples.{SamplesLaidOut};
ghost use Rattle.table.specs.Theorems.{ListedJustWhenLaidOut, OneTree, RefusedAtLowest, OneAnswer};

// Every node of a table is as listed just when some tree lays the table out.
pub fn listed_just_when_laid_out() -> u8
    ensures { ListedJustWhenLaidOut }
{
    0
}

// A table is laid out by one tree at most.
pub fn laid_out_by_one_tree() -> u8
    ensures { OneTree }
{
    0
}

// The refused node is not as listed, and all below it are.
pub fn refused_at_lowest() -> u8
    ensures { RefusedAtLowest }
{
    0
}

// No table has two answers.
pub fn answered_once() -> u8
    ensures { OneAnswer }
{
    0
}

// The tables of the sample rule sets are laid out by their trees.
pub fn samples_laid_out() -> u8
    ensures { SamplesLaidOut }
{
    0
}
