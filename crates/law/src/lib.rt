// The law over runs of calls: every history that the calls of a book can have is lawful.
#![tactic(auto)]

ghost use Rattle.std.specs.Prelude.{◌≡◌};
ghost use Rattle.law.specs.Law.{AnsweredIsLawful, EveryRunIsLawful};

// How many calls the law speaks of.
pub fn law_of_runs() -> usize
    ensures calls { result ≡ 11 }
    ensures runs { EveryRunIsLawful }
    ensures histories { AnsweredIsLawful }
{
    11
}
