// The opening line of a text.
ghost use Rattle.std.specs.Prelude.{◌≡◌, option_copied};
ghost use Rattle.text_laws.specs.Fold.{opening_name};
ghost use Rattle.texts.specs.FramePlaces.{answered};

use names::labels::is_label;

// The NAME of an opening line: `A ` or `An ` stands in front of it, and the closing words behind it.
pub(crate) fn opening_name(line: &[u8]) -> Option<&[u8]>
    ensures { answered (option_copied result) ≡ opening_name line.now }
{
    let named = line
        .strip_prefix(b"An ")
        .or_else(|| line.strip_prefix(b"A "))?;
    let name = named.strip_suffix(b" is formatted as follows:")?;
    is_label(name).then_some(name)
}
