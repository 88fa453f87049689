// The faults of a token, of which the one with the lowest number counts.
ghost use Rattle.std.specs.Prelude.{◌≡◌, ℕ};
ghost use Rattle.refusals.specs.Refusal.{number_of};
ghost use Rattle.atoms.specs.Fault.{lower};
ghost use Rattle.atoms.specs.Answer.{fault};

use refusals::Refusal;

// A fault in either form: a reason, where there is one, or any number, where 0 is none.
pub trait Numbered: Copy {
    ghost number: { Self → ℕ };

    // Its number.
    fn number(self) -> u32
        ensures { result ≡ number self };

    // The fault that a reason is.
    fn of(refusal: Refusal) -> Self
        ensures { number result ≡ number_of refusal };
}

impl Numbered for Refusal {
    ghost number = { number_of };

    fn number(self) -> u32 {
        Refusal::number(self)
    }

    fn of(refusal: Refusal) -> Refusal {
        refusal
    }
}

impl Numbered for Option<Refusal> {
    ghost number = { fault };

    fn number(self) -> u32 {
        refusals::number_if(self)
    }

    fn of(refusal: Refusal) -> Option<Refusal> {
        Some(refusal)
    }
}

impl Numbered for u32 {
    ghost number = { λ n. n };

    fn number(self) -> u32 {
        self
    }

    fn of(refusal: Refusal) -> u32 {
        refusal.number()
    }
}

// The lower of two faults, where there are any.
pub fn lower<F: Numbered>(f: F, g: F) -> F
    ensures { F.number result ≡ lower (F.number f) (F.number g) }
{
    match (f.number(), g.number()) {
        (0, _) => g,
        (_, 0) => f,
        (a, b) => if a <= b { f } else { g },
    }
}
