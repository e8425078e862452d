//! Answers, as the numbers that a host sees.

ghost use Rattle.std.specs.Prelude.{◌≡◌, MatchResult, Ok, Err};
ghost use Rattle.refusal.specs.Reasons.{number_of};

use refusal::Refusal;

/// The number of an accepted call; or the number of the reason, with the channel, x and y of the place.
pub type HostAnswer = Result<u32, (u32, usize, usize, usize)>;

/// What a host sees of an answer.
pub fn told(answer: Result<u32, Refusal>) -> HostAnswer
    ensures { MatchResult answer (λ n. result ≡ Ok n) (λ e. result ≡ Err (record { 0 = number_of e.reason; 1 = e.place.channel; 2 = e.place.x; 3 = e.place.y })) }
{
    match answer {
        Ok(n) => Ok(n),
        Err(Refusal { reason, place }) => Err((reason.number(), place.channel, place.x, place.y)),
    }
}
