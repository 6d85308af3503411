//! What a file is, by its first bytes.

ghost use Rattle.std.specs.Prelude.{◌≡◌, Some};
ghost use Rattle.lfi_file_commands.specs.Kinds as spec;

use std::fmt;

/// What a file is, by its first four bytes.
#[derive(Clone, Copy, PartialEq, Eq)]
pub enum FileKind {
    /// An ELF file: 7f 45 4c 46.
    Elf,
    /// The file of an image: `LFI1`.
    Image,
    /// A stream, which begins with an Open.
    Stream,
    /// None of these: it may be code.
    Plain,
}

/// Whether an Open begins so: with this kind and this second byte.
fn opens_module(kind: u8, second: u8) -> bool
    ensures { result ≡ spec.opens_module kind second }
{
    kind == 1 && second == 0 || kind == 4 && (second == 0 || second == 2)
}

/// What a file with these first four bytes is.
fn kind_by(a: u8, b: u8, c: u8, d: u8) -> FileKind
    ensures { result ≡ spec.kind_by a b c d }
{
    if a == 0x7f && b == 0x45 && c == 0x4c && d == 0x46 {
        FileKind::Elf
    } else if a == 0x4c && b == 0x46 && c == 0x49 && d == 0x31 {
        FileKind::Image
    } else if opens_module(a, b) && c < 16 && d == 0 {
        FileKind::Stream
    } else {
        FileKind::Plain
    }
}

impl FileKind {
    /// What a file with these bytes is. Its first four say it.
    pub fn of(bytes: &[u8]) -> FileKind
        ensures { result ≡ spec.file_kind bytes.now }
    {
        if bytes.len() < 4 {
            return FileKind::Plain;
        }
        kind_by(bytes[0], bytes[1], bytes[2], bytes[3])
    }

    /// What it is, and what to do with it.
    pub fn text(self) -> &'static str
        ensures { result.now ≡ spec.kind_text self }
    {
        match self {
            FileKind::Elf =>
                "an ELF file; aarch64-linux-gnu-objcopy -O binary -j .text FILE CODE writes its code",
            FileKind::Image => "an image; lfiload run runs it, lfiload unpack writes its code",
            FileKind::Stream => "a stream; lfiload load loads its modules",
            FileKind::Plain => "",
        }
    }
}

/// That the file at a path, which is taken for code, begins as another kind of file; nothing, where it is plain.
#[derive(Clone, Copy)]
pub(crate) struct KindNote<'a> {
    pub(crate) path: &'a str,
    pub(crate) kind: FileKind,
}

impl fmt::Display for KindNote<'_> {
    ghost output = { λ note. Some (spec.kind_note note.path.now note.kind) };

    fn fmt<W: fmt::Write>(&self, f: &mut fmt::Formatter<W>) -> fmt::Result {
        match self.kind {
            FileKind::Plain => Ok(()),
            kind => write!(f, "lfiload: {}: {}\n", self.path, kind.text()),
        }
    }
}

/// The line of a file's kind; nothing, where it is plain.
#[derive(Clone, Copy)]
pub struct KindLine(pub FileKind);

impl fmt::Display for KindLine {
    ghost output = { λ line. Some (spec.kind_line line.0) };

    fn fmt<W: fmt::Write>(&self, f: &mut fmt::Formatter<W>) -> fmt::Result {
        match self.0 {
            FileKind::Plain => Ok(()),
            kind => write!(f, "  file: {}\n", kind.text()),
        }
    }
}
