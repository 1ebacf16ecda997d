// The class of every byte value, in one constant table.
ghost use Rattle.std.specs.Prelude.{◌≡◌, ◌||◌, eqb};
ghost use Rattle.rules.specs.Names.{is_letter, is_digit, is_operator, is_space, is_word_byte, is_label_byte};
ghost use Rattle.names.specs.Classes.{
  letter_class,
  digit_class,
  operator_class,
  space_class,
  class_table,
  has_class,
  is_word_in,
};
ghost use Rattle.names.specs.LentNames.{is_label_byte_in};

// Document 01 gives the form: a number for each class, in a table.
const LETTER: u8 = 1;

const DIGIT: u8 = 2;

const OPERATOR: u8 = 3;

const SPACE: u8 = 4;

const CLASSES: [u8; 256] = [
    0, 0, 0, 0, 0, 0, 0, 0, 0, 0, 0, 0, 0, 0, 0, 0, 0, 0, 0, 0, 0, 0, 0, 0, 0, 0, 0, 0, 0, 0, 0, 0,
    4, 3, 0, 0, 0, 3, 3, 0, 0, 0, 3, 3, 0, 3, 0, 3, 2, 2, 2, 2, 2, 2, 2, 2, 2, 2, 0, 0, 3, 3, 3, 0,
    0, 1, 1, 1, 1, 1, 1, 1, 1, 1, 1, 1, 1, 1, 1, 1, 1, 1, 1, 1, 1, 1, 1, 1, 1, 1, 1, 0, 0, 0, 3, 0,
    0, 1, 1, 1, 1, 1, 1, 1, 1, 1, 1, 1, 1, 1, 1, 1, 1, 1, 1, 1, 1, 1, 1, 1, 1, 1, 1, 0, 3, 0, 0, 0,
    0, 0, 0, 0, 0, 0, 0, 0, 0, 0, 0, 0, 0, 0, 0, 0, 0, 0, 0, 0, 0, 0, 0, 0, 0, 0, 0, 0, 0, 0, 0, 0,
    0, 0, 0, 0, 0, 0, 0, 0, 0, 0, 0, 0, 0, 0, 0, 0, 0, 0, 0, 0, 0, 0, 0, 0, 0, 0, 0, 0, 0, 0, 0, 0,
    0, 0, 0, 0, 0, 0, 0, 0, 0, 0, 0, 0, 0, 0, 0, 0, 0, 0, 0, 0, 0, 0, 0, 0, 0, 0, 0, 0, 0, 0, 0, 0,
    0, 0, 0, 0, 0, 0, 0, 0, 0, 0, 0, 0, 0, 0, 0, 0, 0, 0, 0, 0, 0, 0, 0, 0, 0, 0, 0, 0, 0, 0, 0, 0,
];

// Each use of the constant makes the table anew: a loop over bytes has it made once, and lends it to its tests.
pub fn class_table() -> [u8; 256]
    ensures { result ≡ class_table }
{
    CLASSES
}

// The tests up to the struct go by the class that a lent table has of the byte: they are promised for any table.
#[tactic(auto, unfolding(crate::specs::Classes::has_class))]
fn has_class(classes: &[u8; 256], b: u8, class: u8) -> bool
    ensures { result ≡ has_class class classes.now b }
{
    classes[usize::from(b)] == class
}

pub(crate) fn is_letter_in(classes: &[u8; 256], b: u8) -> bool
    ensures { result ≡ has_class letter_class classes.now b }
{
    has_class(classes, b, LETTER)
}

pub fn is_digit_in(classes: &[u8; 256], b: u8) -> bool
    ensures { result ≡ has_class digit_class classes.now b }
{
    has_class(classes, b, DIGIT)
}

pub fn is_operator_in(classes: &[u8; 256], b: u8) -> bool
    ensures { result ≡ has_class operator_class classes.now b }
{
    has_class(classes, b, OPERATOR)
}

pub fn is_space_in(classes: &[u8; 256], b: u8) -> bool
    ensures { result ≡ has_class space_class classes.now b }
{
    has_class(classes, b, SPACE)
}

// A letter or digit: what may stand in a short name.
pub fn is_word_in(classes: &[u8; 256], b: u8) -> bool
    ensures { result ≡ is_word_in classes.now b }
{
    is_letter_in(classes, b) || is_digit_in(classes, b)
}

// A space or hyphen. A function of its own: in one chain with the other classes, all become one test of a set, which
// takes half as many instructions again for a letter or digit.
fn is_gap_in(classes: &[u8; 256], b: u8) -> bool
    ensures { result ≡ (has_class space_class classes.now b || eqb b 45) }
{
    is_space_in(classes, b) || b == b'-'
}

// A letter, digit, space or hyphen: what may stand in a label.
pub(crate) fn is_label_byte_in(classes: &[u8; 256], b: u8) -> bool
    ensures { result ≡ is_label_byte_in classes.now b }
{
    is_word_in(classes, b) || is_gap_in(classes, b)
}

// The classes of all byte values, made once for a loop over bytes and lent to its tests.
#[derive(Drop)]
pub struct Classes {
    pub(crate) table: [u8; 256],
    ghost whole: { table ≡ class_table },
}

impl Classes {
    pub fn new() -> Self
        ensures { result.table ≡ class_table }
    {
        Classes {
            table: class_table(),
        }
    }

    #[tactic(auto, using(crate::proofs::ClassRules::letter_in))]
    pub fn is_letter(&self, b: u8) -> bool
        ensures { result ≡ is_letter b }
    {
        is_letter_in(&self.table, b)
    }

    #[tactic(auto, using(crate::proofs::ClassRules::digit_in))]
    pub fn is_digit(&self, b: u8) -> bool
        ensures { result ≡ is_digit b }
    {
        is_digit_in(&self.table, b)
    }

    #[tactic(auto, using(crate::proofs::ClassRules::operator_in))]
    pub fn is_operator(&self, b: u8) -> bool
        ensures { result ≡ is_operator b }
    {
        is_operator_in(&self.table, b)
    }

    #[tactic(auto, using(crate::proofs::ClassRules::space_in))]
    pub fn is_space(&self, b: u8) -> bool
        ensures { result ≡ is_space b }
    {
        is_space_in(&self.table, b)
    }

    // A letter or digit.
    #[tactic(auto, using(crate::proofs::ClassRules::word_in))]
    pub fn is_word(&self, b: u8) -> bool
        ensures { result ≡ is_word_byte b }
    {
        is_word_in(&self.table, b)
    }

    // A letter, digit, space or hyphen.
    #[tactic(auto, using(crate::proofs::ClassRules::label_byte_in))]
    pub fn is_label_byte(&self, b: u8) -> bool
        ensures { result ≡ is_label_byte b }
    {
        is_label_byte_in(&self.table, b)
    }
}
