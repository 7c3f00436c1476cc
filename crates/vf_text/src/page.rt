ghost use Rattle.std.specs.Prelude.{◌≡◌, [], ◌++◌, ◌∷◌, codes, decimal, IfOk, OnOk};
ghost use Rattle.std.specs.Fmt.{signed_decimal};
ghost use Rattle.vf_io.specs.Pieces.{line_feed};
ghost use Rattle.vf_text.specs.Pages.{numbers};

use itoa::Buffer;
use std::alloc::Global;
use std::marker::Model;
use vf_io::NoMemory;

/// A text that grows. Its value is its bytes.
#[derive(Drop)]
pub struct Page {
    bytes: Vec<u8>,
}

impl Model for Page {
    ghost use Rattle.std.specs.Prelude.{ℕ, List};

    ghost Value = { List ℕ };

    ghost view = { λ p. p.bytes.items };
}

impl Page {
    /// An empty text.
    pub fn new(alloc: Global) -> Page
        ensures { result ≡ [] }
    {
        Page {
            bytes: Vec::new(alloc),
        }
    }

    /// An empty text with room for `room` bytes.
    pub fn with_room(alloc: Global, room: usize) -> Result<Page, NoMemory>
        ensures { IfOk result (λ page. page ≡ []) }
    {
        match Vec::with_capacity(alloc, room) {
            Ok(bytes) => Ok(Page { bytes }),
            Err(_) => Err(NoMemory),
        }
    }

    /// The bytes of the text.
    pub fn into_vec(self) -> Vec<u8>
        ensures { result.items ≡ self }
    {
        self.bytes
    }

    /// Adds bytes.
    pub fn text(&mut self, bytes: &[u8]) -> Result<(), NoMemory>
        ensures { OnOk result (self.new ≡ self.old ++ bytes.now) }
    {
        match self.bytes.extend_from_slice(bytes) {
            Ok(()) => Ok(()),
            Err(_) => Err(NoMemory),
        }
    }

    /// Adds a space, which comes before each number of a line.
    pub fn space(&mut self) -> Result<(), NoMemory>
        ensures { OnOk result (self.new ≡ self.old ++ codes " ") }
    {
        match self.bytes.push(b' ') {
            Ok(()) => Ok(()),
            Err(_) => Err(NoMemory),
        }
    }

    /// Adds a line end.
    pub fn end_line(&mut self) -> Result<(), NoMemory>
        ensures { OnOk result (self.new ≡ self.old ++ line_feed ∷ []) }
    {
        self.text(b"\n")
    }

    /// Adds a count.
    pub fn count(&mut self, n: usize) -> Result<(), NoMemory>
        ensures { OnOk result (self.new ≡ self.old ++ decimal n) }
    {
        self.text(Buffer::new().format(n).as_bytes())
    }

    /// Adds a number.
    pub fn number(&mut self, z: i32) -> Result<(), NoMemory>
        ensures { OnOk result (self.new ≡ self.old ++ signed_decimal z) }
    {
        self.text(Buffer::new().format(z).as_bytes())
    }

    /// Adds three numbers, each with a space before it.
    pub fn point(&mut self, point: &[i32; 3]) -> Result<(), NoMemory>
        ensures { OnOk result (self.new ≡ self.old ++ numbers point.now) }
    {
        let [x, y, z] = *point;
        self.space()?;
        self.number(x)?;
        self.space()?;
        self.number(y)?;
        self.space()?;
        self.number(z)
    }
}
