//! Laws of the definitions that the contracts cite.
ghost use Rattle.script_text.specs.Line.{SpellsOne, ReadsOnce};
ghost use Rattle.script_text.specs.Variables.{VariablesAreListed};

/// A line spells one command at most.
#[tactic(auto, using(crate::proofs::SpellLemmas::spells_one))]
pub fn one_command()
    ensures { SpellsOne }
{}

/// A line that spells a command isn't refused, and a refused line has one fault.
pub fn reads_once()
    ensures { ReadsOnce }
{}

/// A list of variables, however it matches, gives one number for each of them, in order.
#[tactic(auto, using(crate::proofs::VariableLemmas::variables_listed))]
pub fn variables_are_listed()
    ensures { VariablesAreListed }
{}
