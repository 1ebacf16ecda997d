// The number, place and amount of a packet's answer.
ghost use Rattle.std.specs.Prelude.{◌≡◌};
ghost use Rattle.rules.specs.Answers.{of_packet};

use rules::PacketAnswer;
use rules::refusals::Refusal;

// 0 for an accepted packet.
#[tactic(auto, unfolding(rules::specs::Answers::of_packet))]
pub fn number_of(answer: PacketAnswer) -> usize
    ensures { result ≡ (of_packet answer).number }
{
    match answer {
        Ok(_) => 0,
        Err(refusal) => usize::from(Refusal::from(refusal).number),
    }
}

#[tactic(auto, unfolding(rules::specs::Answers::of_packet))]
pub fn place_of(answer: PacketAnswer) -> usize
    ensures { result ≡ (of_packet answer).place }
{
    match answer {
        Ok(_) => 0,
        Err(refusal) => Refusal::from(refusal).place,
    }
}

// 0 for a packet that is refused.
#[tactic(auto, unfolding(rules::specs::Answers::of_packet))]
pub fn amount_of(answer: PacketAnswer) -> usize
    ensures { result ≡ (of_packet answer).amount }
{
    match answer {
        Ok(value) => value,
        Err(_) => 0,
    }
}
