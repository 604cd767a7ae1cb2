ghost use Rattle.std.specs.Prelude.{◌≡◌, ℕ};
ghost use Rattle.theory.specs.Faults.{theory_fault_number, fact_fault_number};

// Why a call was refused. Tools know each reason by its number.
pub trait Refusal: Copy {
    ghost number: { Self → ℕ };

    fn number(self) -> u8
        ensures { result ≡ number self };
}

// Why a theory was not made.
#[derive(Clone, Copy, Debug, PartialEq, Eq)]
pub enum TheoryFault {
    TooManyVariables = 5,
}

// Why a fact was not made.
#[derive(Clone, Copy, Debug, PartialEq, Eq)]
pub enum FactFault {
    NoTerm = 6,
    NoVariable = 7,
    ConstantOutOfRange = 8,
}

// A number stands for itself, so that a tool that holds no more than a number can print it.
impl Refusal for u8 {
    ghost number = { λ n. n };

    fn number(self) -> u8 {
        self
    }
}

impl Refusal for TheoryFault {
    ghost number = { theory_fault_number };

    fn number(self) -> u8 {
        self as u8
    }
}

impl Refusal for FactFault {
    ghost number = { fact_fault_number };

    fn number(self) -> u8 {
        self as u8
    }
}
