// The nodes of trees, in a table: parts stand before the whole.
ghost use Rattle.std.specs.Prelude.{◌≡◌, ◌+◌, ◌-◌, ◌^◌, ◌<◌, ◌≤◌, [], ◌∷◌, length, take, slice_set};
ghost use Rattle.nodes.specs.Methods.{no_span};

use text::span::Span;

// How many arguments of a call are kept, and how many parameters of a method.
pub const ARGUMENTS: u16 = 4;

// The arguments of a call: how many there are, and where the first four stand.
// (No ArrayVec: a Form is Copy, which that is not, and the count goes on beyond four. Parameters are alike, and no generic struct has an array of a type parameter.)
#[derive(Clone, Copy)]
pub struct Arguments {
    pub count: u16,
    pub roots: [u16; 4],
}

// No argument. (Derived, it would not say that all four roots are 0 as one list.)
impl Default for Arguments {
    ghost is_default = { λ a. a ≡ record { count = 0; roots = 0 ∷ 0 ∷ 0 ∷ 0 ∷ [] } };

    fn default() -> Arguments {
        Arguments {
            count: 0,
            roots: [0; 4],
        }
    }
}

impl Arguments {
    // One more argument; only the first four are kept.
    pub fn with(self, root: u16) -> Arguments
        requires { self.count < 2 ^ 16 - 1 }
        ensures counted { result.count ≡ self.count + 1 }
        ensures kept { result.roots ≡ slice_set self.roots self.count root }
    {
        let mut roots = self.roots;
        let at = usize::from(self.count);
        if at < roots.len() {
            roots[at] = root;
        }
        Arguments {
            count: self.count + 1,
            roots,
        }
    }

    // Where the first four stand, or all if there are fewer.
    pub fn kept(&self) -> &[u16]
        ensures the_first { result.now ≡ take self.now.count self.now.roots }
        ensures at_most_four { length result.now ≤ 4 }
    {
        &self.roots[..usize::from(self.count.min(ARGUMENTS))]
    }
}

#[derive(Clone, Copy, Default)]
pub enum Form {
    Int(i32),
    #[default]
    Nil,
    SelfWord,
    Str(Span),
    Local(Span),
    SetLocal(Span, u16),
    Field(Span),
    SetField(Span, u16),
    If(u16, u16, u16),
    While(u16, u16),
    Seq(u16, u16),
    New(Span, Arguments),
    InstanceOf(u16, Span),
    Invoke(u16, Span, Arguments),
}

// A node, with the byte of the text where its expression begins.
#[derive(Clone, Copy, Default)]
pub struct Node {
    pub place: u16,
    pub form: Form,
}

// A rule in the node table: its root, and how many nodes it has.
#[derive(Clone, Copy)]
pub struct Rule {
    pub root: u16,
    pub nodes: u16,
}

// The parameters of a method: how many there are, and the names of the first four.
#[derive(Clone, Copy)]
pub struct Parameters {
    pub count: u16,
    pub names: [Span; 4],
}

// No parameter.
impl Default for Parameters {
    ghost is_default = { λ p. p ≡ record { count = 0; names = no_span ∷ no_span ∷ no_span ∷ no_span ∷ [] } };

    fn default() -> Parameters {
        Parameters {
            count: 0,
            names: [Span::default(); 4],
        }
    }
}

impl Parameters {
    // One more parameter; only the names of the first four are kept.
    pub fn with(self, name: Span) -> Parameters
        requires { self.count < 2 ^ 16 - 1 }
        ensures counted { result.count ≡ self.count + 1 }
        ensures kept { result.names ≡ slice_set self.names self.count name }
    {
        let mut names = self.names;
        let at = usize::from(self.count);
        if at < names.len() {
            names[at] = name;
        }
        Parameters {
            count: self.count + 1,
            names,
        }
    }

    // The names of the first four, or of all if there are fewer.
    pub fn kept(&self) -> &[Span]
        ensures the_first { result.now ≡ take self.now.count self.now.names }
    {
        &self.names[..usize::from(self.count.min(ARGUMENTS))]
    }
}

// A method: its name, its parameters, and the root of its body.
#[derive(Clone, Copy, Default)]
pub struct Method {
    pub name: Span,
    pub parameters: Parameters,
    pub root: u16,
}

// A class: its name, its parent's, how many methods are recorded, and how many nodes their bodies have.
#[derive(Clone, Copy)]
pub struct Class {
    pub name: Span,
    pub parent: Span,
    pub methods: u16,
    pub nodes: u16,
}
