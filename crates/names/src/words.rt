// Words compared byte by byte, and the reserved words.
ghost use Rattle.std.specs.Prelude.{◌≡◌, get_or};
ghost use Rattle.base.specs.Lists.{same};
ghost use Rattle.rules.specs.Names.{is_reserved};

// A byte, 0 behind the end.
pub fn byte_of(w: &[u8], i: usize) -> u8
    ensures { result ≡ get_or w.now i 0 }
{
    w.get(i).copied().unwrap_or(0)
}

pub fn same_words(a: &[u8], b: &[u8]) -> bool
    ensures { result ≡ same a.now b.now }
{
    a == b
}

// One comparison after the other: a list that is searched makes the check of a table a tenth slower.
#[tactic(auto, using(base::proofs::Lists::or_false_right), unfolding(rules::specs::Names::is_reserved,
// the words of the rules
rules::specs::Names::reserved, base::specs::Lists::any))]
pub fn is_reserved(w: &[u8]) -> bool
    ensures { result ≡ is_reserved w.now }
{
    same_words(w, b"bit")
        || same_words(w, b"bits")
        || same_words(w, b"byte")
        || same_words(w, b"bytes")
        || same_words(w, b"variable")
        || same_words(w, b"present")
}
