// What the code of a rule is.
#![tactic(auto)]

ghost use Rattle.compiler.specs.Samples.{RunsHold, MeaningsHold, MoreRunsHold};

// The sample rules, compiled and run on the machine, end and print as they do in the language.
pub fn samples_stand()
    ensures { RunsHold × MeaningsHold × MoreRunsHold }
{}
