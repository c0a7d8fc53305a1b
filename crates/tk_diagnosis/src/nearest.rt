//! The name that is nearest to a misspelt word.
use std::alloc::{AllocError, Global};
use strsim::generic_levenshtein;

/// Maximum number of bytes of a word that are compared.
const LENGTH: usize = 40;

/// The name with the smallest edit distance from a word; the first one, if there are several. Names are in capitals.
/// The distance is at most 2, or a quarter of the word's bytes if that is more.
///
/// # Errors
/// `AllocError` if memory runs out.
pub fn nearest<'a>(
    alloc: Global,
    word: &[u8],
    names: &[&'a str],
) -> Result<Option<&'a str>, AllocError> {
    let mut best = None;
    let mut least = (word.len() / 4).max(2).saturating_add(1);
    let capitals = word
        .get(..LENGTH)
        .unwrap_or(word)
        .to_ascii_uppercase(alloc)?;
    for name in names {
        let edits = generic_levenshtein(alloc, &capitals, name.as_bytes())?;
        if edits < least {
            least = edits;
            best = Some(*name);
        }
    }
    Ok(best)
}
