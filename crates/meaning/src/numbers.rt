// The numbers of the answers, which calls give to C.
ghost use Rattle.std.specs.Prelude.{◌≡◌};

use crate::{Answer, Refusal, Stop};

impl From<Stop> for u32 {
    ghost use Rattle.meaning.specs.Calls.{stop_number};

    ghost from_gives = { λ why n. n ≡ stop_number why };

    #[tactic(auto, unfolding(crate::specs::Calls::stop_number))]
    fn from(why: Stop) -> u32 {
        why as u32
    }
}

impl From<Refusal> for u32 {
    ghost use Rattle.meaning.specs.Calls.{refusal_number};

    ghost from_gives = { λ why n. n ≡ refusal_number why };

    #[tactic(auto, unfolding(crate::specs::Calls::refusal_number))]
    fn from(why: Refusal) -> u32 {
        why as u32
    }
}

impl From<Answer> for u32 {
    ghost use Rattle.meaning.specs.Calls.{answer_number};

    ghost from_gives = { λ a n. n ≡ answer_number a };

    #[tactic(auto, unfolding(crate::specs::Calls::answer_number))]
    fn from(a: Answer) -> u32 {
        match a {
            Answer::Result => 0,
            Answer::Fail => 1,
            Answer::Stopped(why) => why.into(),
            Answer::Refused(why) => why.into(),
        }
    }
}
