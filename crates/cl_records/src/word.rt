ghost use Rattle.std.specs.Prelude.{◌≡◌, ◌≤◌, length};
ghost use Rattle.std.specs.List.{prefix_len};
ghost use Rattle.std.specs.Str.{str_eq_ignore_ascii_case};
ghost use Rattle.cl_lines.specs.Words.{word_name};
ghost use Rattle.cl_records.specs.Words.{is_word_byte, word_of, behind_word, keyword_name, major_of, named};

use cl_lines::Word;
use vf_text::skip_blanks;

/// The major words whose records are read.
#[derive(Clone, Copy)]
pub enum Keyword {
    Goto,
    From,
    Godlta,
    Cutter,
    Multax,
    Units,
    Rapid,
    Fini,
}

/// What is done with a record, by its major word.
#[derive(Clone, Copy)]
pub enum Major {
    Read(Keyword),
    Refused(Word),
    Passed,
}

/// The words that are read, the most frequent ones first.
pub const KEYWORDS: [Keyword; 8] = [
    Keyword::Goto,
    Keyword::Rapid,
    Keyword::Godlta,
    Keyword::From,
    Keyword::Cutter,
    Keyword::Multax,
    Keyword::Units,
    Keyword::Fini,
];

/// The words that are refused.
pub const REFUSED_WORDS: [Word; 24] = [
    Word::Circle,
    Word::Cycle,
    Word::Movarc,
    Word::Copy,
    Word::Tracut,
    Word::Trans,
    Word::Origin,
    Word::Rotate,
    Word::Rotabl,
    Word::Rothed,
    Word::Gohome,
    Word::Index,
    Word::Gofwd,
    Word::Goback,
    Word::Golft,
    Word::Gorgt,
    Word::Goup,
    Word::Godown,
    Word::Tlon,
    Word::Tllft,
    Word::Tlrgt,
    Word::Indirp,
    Word::Indirv,
    Word::Tlaxis,
];

impl Keyword {
    /// The word in capital letters.
    fn name(self) -> &'static [u8]
        ensures { result.now ≡ keyword_name self }
    {
        match self {
            Keyword::Goto => b"GOTO",
            Keyword::From => b"FROM",
            Keyword::Godlta => b"GODLTA",
            Keyword::Cutter => b"CUTTER",
            Keyword::Multax => b"MULTAX",
            Keyword::Units => b"UNITS",
            Keyword::Rapid => b"RAPID",
            Keyword::Fini => b"FINI",
        }
    }
}

/// The major word of a record text, and what follows it.
pub(crate) fn split_word(text: &[u8]) -> (&[u8], &[u8])
    ensures word { result.0.now ≡ word_of text.now }
    ensures behind { result.1.now ≡ behind_word text.now }
{
    let front = skip_blanks(text);
    front.split_at(word_len(front))
}

/// How many bytes of a word are in front.
fn word_len(text: &[u8]) -> usize
    ensures count { result ≡ prefix_len is_word_byte text.now }
    ensures within { result ≤ length text.now }
{
    for (i, b) in text.iter().enumerate() {
        if !(b.is_ascii_alphanumeric() || *b == b'-' || *b == b'_') {
            return i;
        }
    }
    text.len()
}

/// What is done with a record of the word that the letters spell, whatever their case.
pub(crate) fn major_word(letters: &[u8]) -> Major
    ensures { result ≡ major_of letters.now }
{
    if let Some(keyword) = find_keyword(&KEYWORDS, letters) {
        return Major::Read(keyword);
    }
    match find_refused(&REFUSED_WORDS, letters) {
        Some(word) => Major::Refused(word),
        None => Major::Passed,
    }
}

/// The first of some words that the letters spell.
fn find_keyword(keywords: &[Keyword], letters: &[u8]) -> Option<Keyword>
    ensures { result ≡ named keyword_name keywords.now letters.now }
{
    for keyword in keywords {
        if spells(letters, keyword.name()) {
            return Some(*keyword);
        }
    }
    None
}

/// The first of some refused words that the letters spell.
fn find_refused(words: &[Word], letters: &[u8]) -> Option<Word>
    ensures { result ≡ named word_name words.now letters.now }
{
    for word in words {
        if spells(letters, word.name()) {
            return Some(*word);
        }
    }
    None
}

/// Whether letters spell a word, whatever their case.
pub(crate) fn spells(letters: &[u8], word: &[u8]) -> bool
    ensures { result ≡ str_eq_ignore_ascii_case letters.now word.now }
{
    letters.eq_ignore_ascii_case(word)
}
