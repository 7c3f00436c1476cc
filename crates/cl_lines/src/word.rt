ghost use Rattle.std.specs.Prelude.{◌≡◌};
ghost use Rattle.cl_lines.specs.Words.{word_name};

/// The major words whose records are refused, since they can change the motion or the tool axis.
#[derive(Clone, Copy)]
pub enum Word {
    Circle,
    Cycle,
    Movarc,
    Copy,
    Tracut,
    Trans,
    Origin,
    Rotate,
    Rotabl,
    Rothed,
    Gohome,
    Index,
    Gofwd,
    Goback,
    Golft,
    Gorgt,
    Goup,
    Godown,
    Tlon,
    Tllft,
    Tlrgt,
    Indirp,
    Indirv,
    Tlaxis,
}

impl Word {
    /// The word in capital letters.
    pub fn name(self) -> &'static [u8]
        ensures { result.now ≡ word_name self }
    {
        match self {
            Word::Circle => b"CIRCLE",
            Word::Cycle => b"CYCLE",
            Word::Movarc => b"MOVARC",
            Word::Copy => b"COPY",
            Word::Tracut => b"TRACUT",
            Word::Trans => b"TRANS",
            Word::Origin => b"ORIGIN",
            Word::Rotate => b"ROTATE",
            Word::Rotabl => b"ROTABL",
            Word::Rothed => b"ROTHED",
            Word::Gohome => b"GOHOME",
            Word::Index => b"INDEX",
            Word::Gofwd => b"GOFWD",
            Word::Goback => b"GOBACK",
            Word::Golft => b"GOLFT",
            Word::Gorgt => b"GORGT",
            Word::Goup => b"GOUP",
            Word::Godown => b"GODOWN",
            Word::Tlon => b"TLON",
            Word::Tllft => b"TLLFT",
            Word::Tlrgt => b"TLRGT",
            Word::Indirp => b"INDIRP",
            Word::Indirv => b"INDIRV",
            Word::Tlaxis => b"TLAXIS",
        }
    }
}
