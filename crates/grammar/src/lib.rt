// The grammar of rules and classes, and its law.
#![tactic(auto)]

ghost use Rattle.grammar.specs.Grammar.{Kind};
ghost use Rattle.grammar.specs.Law.{Law};
ghost use Rattle.grammar.specs.Notes.{NotesLaw};
ghost use Rattle.grammar.specs.Samples.{Samples};

// Of each kind of text: what is accepted is the one formed tree with these tokens, and a refusal names the first token that no tree has there.
pub fn grammar_stands()
    ensures { (κ : Kind) → Law κ }
{}

// Each node's note is that of the first of its tokens, and notes change no tree.
pub fn notes_stand()
    ensures { NotesLaw }
{}

// The worked examples come out as they are written there.
pub fn samples_stand()
    ensures { Samples }
{}
