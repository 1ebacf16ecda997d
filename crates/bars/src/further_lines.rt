// A further line of a row: its bars stand where those of the first line do.
ghost use Rattle.std.specs.Prelude.{◌≡◌};
ghost use Rattle.text_laws.specs.Bars.{same_bars};
ghost use Rattle.bars.specs.Goes.{goes_on};

use rules::ROW_LINES_MOST;

// The lines have one length, and bars at the same columns.
#[tactic(auto, using(crate::proofs::BarLaws::bars_size))]
fn same_bars(a: &[u8], b: &[u8]) -> bool
    ensures { result ≡ same_bars a.now b.now }
{
    a.len() == b.len()
        && a.iter()
            .zip(b.iter())
            .all(|(x, y)| (*x == b'|') == (*y == b'|'))
}

// The line is one more of the bit row of `n` lines that begins with `first`.
#[tactic(auto, using(base::proofs::Library::head_of))]
pub fn goes_on(n: usize, first: &[u8], line: &[u8]) -> bool
    ensures { result ≡ goes_on n first.now line.now }
{
    n < ROW_LINES_MOST && first.first() == Some(&b'|') && same_bars(first, line)
}
