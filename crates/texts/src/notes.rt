// The lowest refusal so far.
ghost use Rattle.std.specs.Prelude.{◌≡◌, ℕ, ◌≤◌, Some, Err};
ghost use Rattle.rules.specs.Answers.{of_text};
ghost use Rattle.text_laws.specs.Lowest.{lower};
ghost use Rattle.texts.specs.Noted.{told, number_of, place_of, note_of};

use rules::TextRefusal;
use rules::refusals::Refusal;

// A refusal of a text, with the number of its line where it has one.
// Not TextRefusal: too long and no room are never noted.
#[derive(Clone, Copy)]
pub(crate) enum Note {
    BadByte,
    BadLine(usize),
    TooMany,
    BadForm(usize),
    OverLimit(usize),
    Mismatch(usize),
    Repeated(usize),
    BadName(usize),
    BadRest(usize),
}

// The answer of a text that is so refused.
impl From<Note> for TextRefusal {
    ghost from_gives = { λ a r. of_text (Err r) ≡ told a };

    #[tactic(auto, unfolding(rules::specs::Answers::of_text))]
    fn from(a: Note) -> TextRefusal {
        match a {
            Note::BadByte => TextRefusal::BadByte,
            Note::BadLine(p) => TextRefusal::BadLine(p),
            Note::TooMany => TextRefusal::TooMany,
            Note::BadForm(p) => TextRefusal::BadForm(p),
            Note::OverLimit(p) => TextRefusal::OverLimit(p),
            Note::Mismatch(p) => TextRefusal::Mismatch(p),
            Note::Repeated(p) => TextRefusal::Repeated(p),
            Note::BadName(p) => TextRefusal::BadName(p),
            Note::BadRest(p) => TextRefusal::BadRest(p),
        }
    }
}

// The number of a refusal, as its answer has it.
#[tactic(auto, unfolding(rules::specs::Answers::of_text))]
pub(crate) fn number_of(a: Note) -> u8
    ensures { result ≡ number_of a }
{
    Refusal::from(TextRefusal::from(a)).number
}

// The number of its line; 0 where it has none.
#[tactic(auto, unfolding(rules::specs::Answers::of_text))]
pub(crate) fn place_of(a: Note) -> usize
    ensures { result ≡ place_of (Some a) }
{
    Refusal::from(TextRefusal::from(a)).place
}

// The lower refusal; of one number the first, which stands left.
// Not by a derived order: that would compare the places too.
pub(crate) fn lower(a: Option<Note>, b: Option<Note>) -> Option<Note>
    ensures lowest { note_of result ≡ lower (note_of a) (note_of b) }
    ensures place { (m : ℕ) → place_of a ≤ m → place_of b ≤ m → place_of result ≤ m }
{
    let Some(x) = a else {
        return b;
    };
    let Some(y) = b else {
        return a;
    };
    if number_of(y) < number_of(x) { b } else { a }
}
