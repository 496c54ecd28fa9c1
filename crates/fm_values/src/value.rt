//! The values of expressions.

ghost use Rattle.std.specs.Prelude.{◌≡◌};
ghost use Rattle.fm_values.specs.Values.{is_true, is_truth, truth_word, word_of};

/// The value of an expression.
#[derive(Clone, Copy)]
pub enum Value {
    /// An INTEGER.
    Number(i64),
    /// A LOGICAL.
    Truth(bool),
}

/// The word that a logical is kept as: 1 where it is true, else 0.
pub fn truth_word(truth: bool) -> i64
    ensures { result ≡ truth_word truth }
{
    if truth { 1 } else { 0 }
}

/// The logical that a word is kept for: true where it isn't 0.
pub fn is_truth(word: i64) -> bool
    ensures { result ≡ is_truth word }
{
    word != 0
}

impl Value {
    /// The word that the value is kept as.
    pub fn word(self) -> i64
        ensures { result ≡ word_of self }
    {
        match self {
            Value::Number(n) => n,
            Value::Truth(b) => truth_word(b),
        }
    }

    /// Whether it is true. A number counts as the logical that its word is.
    pub fn is_true(self) -> bool
        ensures { result ≡ is_true self }
    {
        match self {
            Value::Number(n) => is_truth(n),
            Value::Truth(b) => b,
        }
    }
}
