//! Laws of the lexical grammar. Each function's contract is the law that it is named for; the
//! functions themselves do nothing.
ghost use Rattle.lq_grammar.specs.Lexemes.{CutTheLine, FaultsWithoutLexeme, TakesLongest};
ghost use Rattle.lq_grammar.specs.LexingLaws.{FindsLiterals, LieInOrder, ValuesLiterals};

/// The tokens of a line are in order, none is empty, no two overlap, and each lies within the line.
pub fn tokens_in_order()
    ensures { LieInOrder }
{}

/// A line has these tokens exactly where they, and white space and comments between them, make the
/// line, one after the other, and each token is the longest lexeme at its place: nothing else is
/// in it, and a line that can be cut in this way has no lexical fault.
pub fn tokens_cut_the_line()
    ensures { CutTheLine }
{}

/// What is taken for a token is exactly the longest lexeme that is there: a reserved word; another word,
/// which is a name; decimal digits of at most 2147483648 that no name could continue; a text
/// between two quotes; or a sign. Two slashes open a comment, and aren't signs. A fault is met exactly
/// where neither white space nor a comment nor a lexeme is.
pub fn longest_tokens()
    ensures longest { TakesLongest }
    ensures faults { FaultsWithoutLexeme }
{}

/// After an opening quote a text literal is found exactly where characters that spell a text are
/// before a quote, and its value is the text that they spell.
pub fn text_literals()
    ensures found { FindsLiterals }
    ensures value { ValuesLiterals }
{}
