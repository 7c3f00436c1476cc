use call_words::verify_words;
use std::alloc::Global;
use std::test::Fail;
use vf_io::NoMemory;

/// Words, parted by `|`, and the file, the setup, the script, the number of workers and the saved stock that they say.
type Said = (
    &'static str,
    &'static str,
    &'static str,
    Option<&'static str>,
    u32,
    Option<&'static str>,
);

const SAID: [Said; 16] = [
    ("A|S", "A", "S", None, 1, None),
    ("A|S|--workers|2", "A", "S", None, 2, None),
    ("--workers=2|A|S", "A", "S", None, 2, None),
    ("A|--script|F|S", "A", "S", Some("F"), 1, None),
    ("A|S|--script=F|--workers=16", "A", "S", Some("F"), 16, None),
    ("A|S|--workers|01", "A", "S", None, 1, None),
    ("--script=-F|A|S", "A", "S", Some("-F"), 1, None),
    ("--script=a=b|A|S", "A", "S", Some("a=b"), 1, None),
    ("A|-|--script|-", "A", "-", Some("-"), 1, None),
    ("--|--script|-S", "--script", "-S", None, 1, None),
    ("A|--|S", "A", "S", None, 1, None),
    ("A|S|--", "A", "S", None, 1, None),
    ("help|S", "help", "S", None, 1, None),
    ("A|S|--stock|T", "A", "S", None, 1, Some("T")),
    (
        "--stock=-T|A|--script|F|S",
        "A",
        "S",
        Some("F"),
        1,
        Some("-T"),
    ),
    ("A|--workers|3|--stock=T|S", "A", "S", None, 3, Some("T")),
];

/// Words that are none of a call.
const NONE: [&str; 35] = [
    "",
    "A",
    "A|",
    "|S",
    "A|S|T",
    "A|--|S|--script",
    "A|S|--script",
    "A|S|--script|",
    "A|S|--script=",
    "A|S|--script|-F",
    "A|S|--script|--workers",
    "A|S|--script=F|--script=G",
    "A|S|--workers=1|--workers=1",
    "A|S|--work=2",
    "A|S|--scrip|F",
    "A|S|--bad",
    "A|S|-x",
    "-5|S",
    "A|S|--help",
    "A|S|-h",
    "A|S|-V",
    "A|S|--version",
    "A|S|--workers|-2",
    "A|S|--workers|",
    "A|S|--workers=0",
    "A|S|--workers=00",
    "A|S|--workers=17",
    "A|S|--workers=001",
    "A|S|--workers=1000",
    "A|S|--workers=+1",
    "A|S|--workers=1.0",
    "A|S|--stock",
    "A|S|--stock=",
    "A|S|--stock|-T",
    "A|S|--stock=T|--stock=T",
];

/// Words as they are handed over.
fn owned_words(alloc: Global, line: &str) -> Result<Vec<String>, NoMemory> {
    let mut words = Vec::new(alloc);
    for word in line.split('|') {
        words.push(String::from_str(alloc, word)?)?;
    }
    Ok(words)
}

/// Whether the words say this.
fn are_said(alloc: Global, said: &Said) -> Result<bool, NoMemory> {
    let (line, file, setup, script, workers, stock) = *said;
    let words = owned_words(alloc, line)?;
    Ok(match verify_words(alloc, words.as_slice())? {
        Some(found) => {
            found.file == file
                && found.setup == setup
                && found.script == script
                && found.workers == workers
                && found.stock == stock
        }
        None => false,
    })
}

/// Whether the words are some of a call.
fn are_words(alloc: Global, line: &str) -> Result<bool, NoMemory> {
    let words = owned_words(alloc, line)?;
    Ok(verify_words(alloc, words.as_slice())?.is_some())
}

#[test]
fn words_of_verify(rt: HostRuntime) -> Result<(), Fail> {
    for said in &SAID {
        assert!(rt; are_said(rt.alloc(), said)?, "the words {:?}", said.0);
    }
    Ok(())
}

#[test]
fn other_words(rt: HostRuntime) -> Result<(), Fail> {
    for line in &NONE {
        assert!(rt; !are_words(rt.alloc(), line)?, "the words {line:?}");
    }
    Ok(())
}
