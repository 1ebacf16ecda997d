// Answers as replies, and parts as spans.
ghost use Rattle.std.specs.Prelude.{◌≡◌, ◌<◌, IfErr, MatchResult};
ghost use Rattle.rules.specs.Answers.{accepted, refused};
ghost use Rattle.rules.specs.declared.refusals.Refusal.{Refusal};
ghost use Rattle.rules.specs.Reading.{part_from};
ghost use Rattle.umarekoza.specs.Exports.{reply_answer, span_part};

use crate::{Reply, Span};
use packets::readings::Bytes;
use rules::refusals::Refusal;

impl From<Bytes> for Span {
    ghost from_gives = { λ part span. span_part span ≡ part_from part.start part.size };

    fn from(part: Bytes) -> Span {
        Span {
            offset: part.start as u64,
            length: part.size as u64,
        }
    }
}

// What is accepted as its amount, a refusal as its number and place. A function and no From, since its callers show
// that the place fits.
pub(crate) fn reply<E: Into<Refusal>>(answer: Result<usize, E>) -> Reply
    requires { IfErr answer (λ e. (r : Refusal) → E.converts e r → r.place < 4294967296) }
    ensures { MatchResult answer (λ n. reply_answer result ≡ accepted n)
        (λ e. (r : Refusal) × E.converts e r × (reply_answer result ≡ refused r.number r.place)) }
{
    match answer {
        Ok(n) => Reply {
            number: 0,
            place: 0,
            length: n as u64,
        },
        Err(e) => {
            let refusal: Refusal = e.into();
            Reply {
                number: u32::from(refusal.number),
                place: refusal.place as u32,
                length: 0,
            }
        }
    }
}
