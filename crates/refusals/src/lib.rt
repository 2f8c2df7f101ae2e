// The rules by which a call refuses, each with its number in the house's table (docs/RULES.md, "Refusals"). What an
// answer says, and that the first rule met gives it, are definitions in specs/, with laws in proofs/.
#![tactic(auto)]

ghost use Rattle.std.specs.Prelude.{◌≡◌, ◌≤◌};
ghost use Rattle.refusals.specs.Refusals.{number_of, number_in};

// A refusal, by its rule. A call gives the first rule that is met.
#[derive(Clone, Copy, Debug, PartialEq, Eq)]
pub enum Refusal {
    Short = 1,
    Trailer,
    Length,
    Header,
    Field,
    Reserved, // never given
    Plan,
    Ticket,
    Run,
    Rows,
    Sample,
    Room,
    Method,
}

impl Refusal {
    // The rule's number.
    pub fn number(self) -> u8
        ensures { result ≡ number_of self }
    {
        self as u8
    }
}

// The number that an answer says: the refusal's, or 0 where it is none, as C has it.
pub fn number<T: Copy>(answer: Result<T, Refusal>) -> u8
    ensures { result ≡ number_in answer }
{
    match answer {
        Ok(_) => 0,
        Err(refusal) => refusal.number(),
    }
}
