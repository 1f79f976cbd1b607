// The language Rube: its built-in methods, its classes and what a rule means.
#![tactic(auto)]

ghost use Rattle.rube.specs.Clock.{ClockLaw};
ghost use Rattle.rube.specs.Samples.{SamplesHold};

pub mod builtin;

// A rule ends in one way at most, and more clock changes nothing.
pub fn meaning_stands()
    ensures { ClockLaw }
{}

// The sample rules end as their table says, from the bytes of their texts on.
pub fn samples_stand()
    ensures { SamplesHold }
{}
