//! The files that the commands read and write.

ghost use Rattle.std.specs.Prelude.{◌≡◌, ℕ, List, [], ◌∷◌, Option, Some, None, IfSome, IfOk, OnOk, OnErr};
ghost use Rattle.lfi_image_file.specs.Files.{file_of};
ghost use Rattle.lfi_file_commands.specs.Images.{Puts};

use lfi_image::CompleteImage;
use lfi_image_file::write_image;
use std::fs::{self, File, Files, OpenFile};
use std::io::{self, Read, Write};
use std::os::unix::fs::MetadataExt;

/// Where the commands find their input.
pub trait Disk {
    /// What reads a file.
    type Reader: Read + Send + Drop;

    /// The bytes of the file at a path, where they are known.
    ghost file_at: { Self → List ℕ → Option (List ℕ) } = { λ _ _. None };

    /// Opens the file at this path.
    ///
    /// # Errors
    ///
    /// Where there is none that can be read, or no memory.
    fn open(&self, path: &str) -> io::Result<Self::Reader>
        ensures { IfOk result (λ reader. IfSome (file_at self.now path.now) (λ bytes. Self.Reader.remaining reader ≡ Some bytes)) };

    /// How many bytes an opened file has, where that is known before they are read. Nothing rests on it but how much memory
    /// its reading takes, and that a file which gives fewer or more can't be read.
    fn length(&self, _reader: &Self::Reader) -> Option<u64> {
        None
    }
}

/// Where the commands put images.
pub trait ImageStore {
    /// The paths and bytes of the files that were put there, the oldest first, where they are known.
    ghost put_files: { Self → Option (List (List ℕ × List ℕ)) } = { λ _. None };

    /// Puts the file of an image at this path, in place of one that is there.
    ///
    /// # Errors
    ///
    /// Where it can't be written whole; a beginning of it may then be there.
    fn put_image(&mut self, path: &str, image: &CompleteImage) -> io::Result<()>
        ensures ok { OnOk result (Puts (put_files self.old) (put_files self.new) ((path.now, file_of image.now) ∷ [])) }
        ensures err { OnErr result (put_files self.new ≡ put_files self.old) };
}

/// The path that names the standard input. A file of this name is `./-`.
const STANDARD_INPUT: &str = "-";

/// The system's files, and its standard input. It tells contracts nothing of their bytes.
#[derive(Drop)]
pub struct SystemDisk<'a, R, I> {
    /// The runtime that reaches them.
    pub rt: &'a R,
    /// The standard input, which the path `-` names.
    pub input: I,
}

/// The system's files, as far as images are put there. It tells contracts nothing of their bytes.
#[derive(Drop)]
pub struct SystemStore<'a, R> {
    /// The runtime that reaches them.
    pub rt: &'a R,
}

/// What reads a file of the system, or its standard input.
#[derive(Drop)]
pub enum SystemReader<I> {
    File(File),
    StandardInput(I),
}

impl<I: Read> Read for SystemReader<I> {
    fn read(&mut self, buf: &mut [u8]) -> io::Result<usize> {
        match self {
            SystemReader::File(file) => file.read(buf),
            SystemReader::StandardInput(input) => input.read(buf),
        }
    }
}

/// A writer to a file, which keeps the error of the last write that failed.
#[derive(Drop)]
struct Telling<'a> {
    file: &'a mut File,
    error: Option<io::Error>,
}

impl Write for Telling<'_> {
    fn write(&mut self, buf: &[u8]) -> io::Result<usize> {
        let written = self.file.write(buf);
        if let Err(error) = &written {
            self.error = Some(*error);
        }
        written
    }

    fn flush(&mut self) -> io::Result<()> {
        self.file.flush()
    }
}

impl<R: Files<File = File>, I: Read + Copy + Send + Drop> Disk for SystemDisk<'_, R, I> {
    type Reader = SystemReader<I>;

    fn open(&self, path: &str) -> io::Result<SystemReader<I>> {
        if path == STANDARD_INPUT {
            return Ok(SystemReader::StandardInput(self.input));
        }
        match File::open(self.rt, path) {
            Ok(file) => Ok(SystemReader::File(file)),
            Err(error) => Err(error),
        }
    }

    fn length(&self, reader: &SystemReader<I>) -> Option<u64> {
        match reader {
            SystemReader::File(file) => length_of(file),
            SystemReader::StandardInput(_) => None,
        }
    }
}

impl<R: Files<File = File>> ImageStore for SystemStore<'_, R> {
    /// The file is one that this call makes: what stands at its name is removed first, and never written to.
    fn put_image(&mut self, path: &str, image: &CompleteImage) -> io::Result<()> {
        let mut file = create_anew(self.rt, path)?;
        write_to(&mut file, image)?;
        require_at(self.rt, &file, path)
    }
}

/// How many bytes a regular file has. One that takes no blocks isn't trusted: where the system makes a file when it is read, it may
/// have fewer bytes than it tells, or more.
fn length_of(file: &File) -> Option<u64> {
    match file.metadata() {
        Ok(metadata) if metadata.is_file() && metadata.blocks() != 0 => Some(metadata.len()),
        _ => None,
    }
}

/// Creates a file at this path, where none is then. What stands there is removed first: the name, and never what a link
/// there names.
///
/// # Errors
///
/// Where the name can't be removed, or the file can't be created, also where another process has just made one there.
fn create_anew<R: Files<File = File>>(rt: &R, path: &str) -> io::Result<File> {
    match fs::remove_file(rt, path) {
        Ok(()) => {}
        Err(error) if error.kind() == io::ErrorKind::NotFound => {}
        Err(error) => return Err(error),
    }
    File::create_new(rt, path)
}

/// Writes the file of an image.
fn write_to(file: &mut File, image: &CompleteImage) -> io::Result<()> {
    let mut telling = Telling { file, error: None };
    match (write_image(image, &mut telling), telling.error) {
        (Ok(()), _) => Ok(()),
        (Err(_), Some(error)) => Err(error),
        (Err(_), None) => Err(io::Error::from(io::ErrorKind::Other)),
    }
}

/// Asks that it is this file that stands at the path: the same device and inode.
///
/// # Errors
///
/// `AlreadyExists` where another file stands there, and that of the system where none does.
fn require_at<R: Files<File = File>>(rt: &R, file: &File, path: &str) -> io::Result<()> {
    let made = file.metadata()?;
    let there = fs::symlink_metadata(rt, path)?;
    if there.dev() == made.dev() && there.ino() == made.ino() {
        Ok(())
    } else {
        Err(io::Error::from(io::ErrorKind::AlreadyExists))
    }
}
