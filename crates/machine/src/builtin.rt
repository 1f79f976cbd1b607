// The functions that the machine has itself.
ghost use Rattle.std.specs.Prelude.{◌≡◌};
ghost use Rattle.machine.specs.Builtin.{builtin_number};
ghost use Rattle.machine.specs.Named.{Named};

use store::value::Identifier;

// Their numbers lie above those of all laid functions.
#[derive(Clone, Copy, Debug, PartialEq, Eq)]
pub enum Builtin {
    PrintValue = 65280,
    ToS = 65281,
    Concat = 65282,
    Length = 65283,
}

impl From<Builtin> for Identifier {
    ghost from_gives = { λ b name. name.0 ≡ builtin_number b };

    fn from(builtin: Builtin) -> Identifier {
        Identifier(builtin as u16)
    }
}

// No function of the machine has this name.
#[derive(Clone, Copy, Debug, PartialEq, Eq)]
pub struct NotBuiltin;

impl TryFrom<Identifier> for Builtin {
    type Error = NotBuiltin;

    ghost try_from_gives = { Named };

    fn try_from(name: Identifier) -> Result<Builtin, NotBuiltin> {
        match name.0 {
            65280 => Ok(Builtin::PrintValue),
            65281 => Ok(Builtin::ToS),
            65282 => Ok(Builtin::Concat),
            65283 => Ok(Builtin::Length),
            _ => Err(NotBuiltin),
        }
    }
}
