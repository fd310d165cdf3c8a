// A text taken apart.
ghost use Rattle.std.specs.Prelude.{MatchOption, take};
ghost use Rattle.std.specs.List.{AllByRecursion};
ghost use Rattle.script.specs.Parts.{NoSpace, Split};

// What stands before and behind the first space.
pub(crate) fn split(text: &[u8]) -> Option<(&[u8], &[u8])>
    ensures { MatchOption result (AllByRecursion NoSpace text.now) (λ p. Split text.now p.0.now p.1.now) }
{
    let space = text.iter().position(|code| *code == b' ')?;
    Some((&text[..space], &text[space + 1..]))
}

// The longest word of a call, with the space behind it.
const WORD: usize = 8;

// What stands before and behind the first space, which is sought no further than a call's word reaches.
pub(crate) fn split_word(text: &[u8]) -> Option<(&[u8], &[u8])>
    ensures { MatchOption result (AllByRecursion NoSpace (take 8 text.now)) (λ p. Split text.now p.0.now p.1.now) }
{
    let (word, _) = split(&text[..text.len().min(WORD)])?;
    Some((word, &text[word.len() + 1..]))
}
