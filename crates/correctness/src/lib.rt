// The compiled rule says what the written one means.
#![tactic(auto)]

ghost use Rattle.std.specs.Prelude.{◌≡◌, ℕ, ◌+◌};
ghost use Rattle.grammar.specs.Tree.{Expr};
ghost use Rattle.grammar.specs.Measure.{nodes};
ghost use Rattle.rube.specs.Classes.{Classes, class_count, pair_count, added_methods};
ghost use Rattle.rube.specs.Bounds.{step_bound, class_nodes, code_bound};
ghost use Rattle.correctness.specs.Law.{Law, CodeLaw, TextLaw};

// The steps after which a rule has ended that counts so many, over so many classes and methods that they see.
// Of bare trees, and of trees that note their places: machine and meaning end alike, with the same output, by then, and the machine is never stuck.
// (The counts stay single numbers: two calls share two of them, and a struct would only be taken apart again.)
pub fn step_bound(counted: u32, classes: u8, methods: u16) -> u64
    ensures the_bound { (P : Classes ℕ) → class_count P ≡ classes → pair_count P ≡ methods → result ≡ step_bound P counted }
    ensures rules_stand { Law (Unit {0}) × Law ℕ }
{
    128 * u64::from(counted) + 128 * (u64::from(classes) + u64::from(methods) + 1)
}

// The instructions that the code of a rule takes at most, with so many nodes in all trees.
pub fn code_bound(size: u32, classes: u8, methods: u16, added: u8) -> u64
    ensures the_bound { (P : Classes ℕ) (e : Expr ℕ) → class_nodes P + nodes e ≡ size → class_count P ≡ classes → pair_count P ≡ methods → added_methods P ≡ added → result ≡ code_bound P e }
    ensures code_fits { CodeLaw (Unit {0}) × CodeLaw ℕ }
{
    40 * u64::from(size)
        + 8 * (u64::from(classes) + u64::from(methods))
        + 32 * u64::from(added)
        + 1024
}

// Every text that is read is spelled as the law asks.
pub fn texts_are_spelled()
    ensures { TextLaw }
{}
