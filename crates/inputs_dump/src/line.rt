use vf_io::NoMemory;
use vf_text::Page;

/// What a line is made of.
#[derive(Clone, Copy)]
pub(crate) enum Word<'a> {
    Text(&'a [u8]),
    Count(usize),
    Number(i32),
}

/// Writes words.
pub(crate) fn write_words(page: &mut Page, words: &[Word<'_>]) -> Result<(), NoMemory> {
    for word in words {
        match *word {
            Word::Text(text) => page.text(text)?,
            Word::Count(n) => page.count(n)?,
            Word::Number(z) => page.number(z)?,
        }
    }
    Ok(())
}

/// Writes a line of words.
pub(crate) fn write_line(page: &mut Page, words: &[Word<'_>]) -> Result<(), NoMemory> {
    write_words(page, words)?;
    page.end_line()
}
