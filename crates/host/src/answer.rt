// Answers as one number.
ghost use Rattle.std.specs.Prelude.{◌≡◌, ℕ};
ghost use Rattle.laws.specs.Counting.{one};
ghost use Rattle.refusal.specs.Table.{number_of};
ghost use Rattle.host.specs.Numbers.{refused_number, of_told};

use head::Head;
use refusal::Refusal;

// What a call answers where it is not refused, as a number: done is 0, yes is 1, no is 0, a count is itself, a head is done.
pub(crate) trait Answer {
    ghost number: { Self → ℕ };

    fn number(self) -> u64
        ensures { result ≡ number self };
}

impl Answer for () {
    ghost number = { λ _. 0 };

    fn number(self) -> u64 {
        0
    }
}

impl Answer for bool {
    ghost number = { one };

    fn number(self) -> u64 {
        u64::from(self)
    }
}

impl Answer for u64 {
    ghost number = { λ n. n };

    fn number(self) -> u64 {
        self
    }
}

impl Answer for Head {
    ghost number = { λ _. 0 };

    fn number(self) -> u64 {
        0
    }
}

pub(crate) fn number<T: Answer>(answer: Result<T, Refusal>) -> u64
    ensures { result ≡ of_told T.number answer }
{
    match answer {
        Ok(told) => told.number(),
        Err(why) => refused(why),
    }
}

pub(crate) fn refused(why: Refusal) -> u64
    ensures { result ≡ refused_number (number_of why) }
{
    u64::MAX - why.number()
}
