//! The words of a line, which spaces part.
ghost use Rattle.std.specs.Prelude.{◌≡◌, ◌∷◌, ◌++◌, [], IfOk, OnOk, filter, map};
ghost use Rattle.lq_command.specs.Words.{is_some_text, words_of};

use std::alloc::{AllocError, Global};

/// The words of a text, which spaces part.
pub fn words_of<'a>(alloc: Global, text: &'a str) -> Result<Vec<&'a str>, AllocError>
    ensures { IfOk result (λ words. map (λ word. word.now) words.items ≡ words_of text.now) }
{
    let mut words = Vec::new(alloc);
    let mut rest = text;
    while let Some((word, behind)) = rest.split_once(' ') {
        add_word(&mut words, word)?;
        rest = behind;
    }
    add_word(&mut words, rest)?;
    Ok(words)
}

/// Puts a word after the others, unless it is empty.
fn add_word<'a>(words: &mut Vec<&'a str>, word: &'a str) -> Result<(), AllocError>
    ensures { OnOk result (map (λ word. word.now) words.new.items
        ≡ map (λ word. word.now) words.old.items ++ filter is_some_text (word.entry.now ∷ [])) }
{
    if word.is_empty() {
        return Ok(());
    }
    words.push(word)?;
    Ok(())
}
