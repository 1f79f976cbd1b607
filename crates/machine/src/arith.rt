// Arithmetic on 32-bit integers.
ghost use Rattle.std.specs.Prelude.{◌≡◌};
ghost use Rattle.machine.specs.Arith.{arith, quotient, in_order};

use crate::ending::Ending;

#[derive(Clone, Copy, Debug, PartialEq, Eq)]
pub enum Op {
    Add,
    Sub,
    Mul,
    Div,
}

#[derive(Clone, Copy, Debug, PartialEq, Eq)]
pub enum Order {
    Less,
    AtMost,
}

impl Op {
    #[tactic(auto, using(std::proofs::lemmas::Int::wraps), unfolding(crate::specs::Arith::arith))]
    pub fn compute(self, a: i32, b: i32) -> Result<i32, Ending>
        ensures the_arithmetic { result ≡ arith self a b }
    {
        match self {
            Op::Add => Ok(a.wrapping_add(b)),
            Op::Sub => Ok(a.wrapping_sub(b)),
            Op::Mul => Ok(a.wrapping_mul(b)),
            Op::Div => divide(a, b),
        }
    }
}

fn divide(a: i32, b: i32) -> Result<i32, Ending>
    ensures towards_zero { result ≡ quotient a b }
{
    if b == 0 {
        Err(Ending::DivisionByZero)
    } else {
        Ok(a.wrapping_div(b))
    }
}

impl Order {
    pub fn holds(self, a: i32, b: i32) -> bool
        ensures the_order { result ≡ in_order self a b }
    {
        match self {
            Order::Less => a < b,
            Order::AtMost => a <= b,
        }
    }
}
