//! How fast an image is written to a file and read back: `bench image WORDS [ROUNDS]`. With a second word it does so as
//! many times, and prints the least time of each part, and the most memory.

ghost use Rattle.std.specs.Prelude.{◌≡◌, IfOk, length};
ghost use Rattle.a64_word.specs.Words.{words_of};

use crate::faults::Fault;
use crate::times::{micros, nanos_since};
use lfi_image::{Builder, CompleteImage, JudgedPage};
use lfi_image_file::{ImageFault, read_image, write_image};
use lfi_module::{Extent, ModuleNumber, PageSize, Profile, WordCount};
use lfi_rules::judge;
use page_buf::{OpenPage, SealedPage};
use std::alloc::Global;
use std::fs::{self, File};
use std::io;
use std::time::Instant;

/// Where the image is written.
const PATH: &str = "bench.img";

/// NOP.
const NOP: [u8; 4] = [0x1F, 0x20, 0x03, 0xD5];

/// More than any gap between the pages of an image, so that it is taken from behind them.
const BEHIND_BYTES: usize = 65_536;

/// A page of this size, of `words` NOPs.
fn page(alloc: Global, size: PageSize, words: usize) -> Result<SealedPage, Fault>
    ensures size { IfOk result (λ page. page.size ≡ size) }
    ensures words { IfOk result (λ page. length (words_of page.bytes) ≡ words) }
{
    let mut page = OpenPage::new(alloc, size)?;
    for _ in 0..words {
        page.write(&NOP);
    }
    match page.seal() {
        Ok(page) => {
            if page.len_words() == words {
                Ok(page)
            } else {
                Err(Fault::Is("a page has not the words due"))
            }
        }
        Err(_) => Err(Fault::Is("a page is not whole words")),
    }
}

/// Places the next page of a module: as many NOPs as are due.
fn append_page(alloc: Global, builder: &mut Builder) -> Result<(), Fault> {
    let page = page(alloc, builder.extent().pages(), builder.due() as usize)?;
    let page = JudgedPage::judge(page, builder.placed(), builder.extent());
    if builder.append(page).is_ok() {
        Ok(())
    } else {
        Err(Fault::Is("the code breaks a rule"))
    }
}

/// The module of `words` words, which is to be entered at the first.
fn extent(words: u32) -> Option<Extent> {
    let words = WordCount::new(words)?;
    Extent::new(words, 0, Profile::One, PageSize::SMALL)
}

/// An image of `words` NOPs.
fn image(alloc: Global, words: u32) -> Result<CompleteImage, Fault> {
    let Some(extent) = extent(words) else {
        return Err(Fault::Is("no module has so many words"));
    };
    let mut builder = Builder::new(alloc, extent, ModuleNumber::at(0))?;
    for _ in 0..extent.words().pages(PageSize::SMALL) {
        append_page(alloc, &mut builder)?;
    }
    match builder.finish() {
        Ok(image) => Ok(image),
        Err(_) => Err(Fault::Is("words are missing")),
    }
}

/// How many pages of a module have a fault, where each of its pages but the last is this one.
fn faulty_pages(page: &SealedPage, words: u32) -> u32 {
    let mut faulty = 0u32;
    if words > WordCount::MOST.number() {
        return 0;
    }
    let size = PageSize::SMALL.words();
    for i in 0..words / size {
        let first = size * i;
        let last = page.len_words() as u32 + first;
        if last <= words && judge(page, first, words, Profile::One).inner.is_some() {
            faulty = faulty.saturating_add(1);
        }
    }
    faulty
}

/// Writes the image to its file: in how many nanoseconds.
fn write(rt: &HostRuntime, image: &CompleteImage) -> Result<u64, Fault> {
    let start = Instant::now(rt)?;
    let mut file = File::create(rt, PATH)?;
    let is_written = write_image(image, &mut file).is_ok();
    let time = nanos_since(rt, start);
    drop(file);
    if is_written {
        time
    } else {
        Err(Fault::Is("the image was not written"))
    }
}

/// How many words an image that was read has; 0 where none was read.
fn words_of_read(read: Result<CompleteImage, ImageFault>) -> u32 {
    match read {
        Ok(image) => image.words().number(),
        Err(_) => 0,
    }
}

/// Reads the image from its file: in how many nanoseconds.
fn read(rt: &HostRuntime, words: u32) -> Result<u64, Fault> {
    let start = Instant::now(rt)?;
    let mut file = File::open(rt, PATH)?;
    let read = read_image(rt.alloc(), &mut file);
    let time = nanos_since(rt, start);
    drop(file);
    if words_of_read(read) == words {
        time
    } else {
        Err(Fault::Is("the image was not read"))
    }
}

/// Reads the image from its file into the memory of the one that was built.
fn read_in_place(rt: &HostRuntime, built: CompleteImage, words: u32) -> Result<u64, Fault> {
    // While this stands behind the image's pages, their memory does not go back to the system.
    let behind: Vec<u8> = Vec::with_capacity(rt.alloc(), BEHIND_BYTES)?;
    drop(built);
    let time = read(rt, words);
    drop(behind);
    time
}

/// Judges `words` words by a page of them, and nothing else: in how many nanoseconds.
fn judge_by(rt: &HostRuntime, page: &SealedPage, words: u32) -> Result<u64, Fault> {
    let start = Instant::now(rt)?;
    if faulty_pages(page, words) == 0 {
        nanos_since(rt, start)
    } else {
        Err(Fault::Is("the code breaks a rule"))
    }
}

/// Judges `words` words of a page.
fn judge_alone(rt: &HostRuntime, words: u32) -> Result<u64, Fault> {
    let page = page(rt.alloc(), PageSize::SMALL, 1024)?;
    judge_by(rt, &page, words)
}

/// What a round took, in nanoseconds.
#[derive(Clone, Copy)]
struct Round {
    write: u64,
    /// Into memory that another image had.
    read: u64,
    /// Into memory that is new from the system.
    read_new: u64,
    judge: u64,
}

impl Round {
    const NEVER: Round = Round {
        write: u64::MAX,
        read: u64::MAX,
        read_new: u64::MAX,
        judge: u64::MAX,
    };

    /// Builds an image, writes it, reads it back twice, and judges as many words.
    fn run(rt: &HostRuntime, words: u32) -> Result<Round, Fault> {
        let built = image(rt.alloc(), words)?;
        let write = write(rt, &built);
        let read_into_old = read_in_place(rt, built, words);
        let read_new = read(rt, words);
        let removed = fs::remove_file(rt, PATH);
        let round = Round {
            write: write?,
            read: read_into_old?,
            read_new: read_new?,
            judge: judge_alone(rt, words)?,
        };
        removed?;
        Ok(round)
    }

    fn least(self, other: Round) -> Round {
        Round {
            write: self.write.min(other.write),
            read: self.read.min(other.read),
            read_new: self.read_new.min(other.read_new),
            judge: self.judge.min(other.judge),
        }
    }

    fn print(self, rt: &HostRuntime, words: u32) -> io::Result<()> {
        let alone = self.read.saturating_sub(self.judge);
        let alone_new = self.read_new.saturating_sub(self.judge);
        let rows = [
            ("written", self.write),
            ("read and judged", self.read),
            ("read and judged, in new memory", self.read_new),
            ("judged alone", self.judge),
            ("read without judging", alone),
            ("read without judging, in new memory", alone_new),
        ];
        for (what, nanos) in rows.iter() {
            print_time(rt, *what, words, *nanos)?;
        }
        Ok(())
    }
}

fn print_time(rt: &HostRuntime, what: &str, words: u32, nanos: u64) -> io::Result<()> {
    let time = micros(nanos);
    let speed = 4 * words as u64 / time;
    println!(rt; "{what}: {time} us, {speed} MB/s")
}

/// What the system tells of the most memory that this process has had at once.
fn peak_of(status: &str) -> &str {
    for line in status.lines() {
        if let Some(peak) = line.strip_prefix("VmHWM:") {
            return peak.trim();
        }
    }
    "unknown"
}

/// Prints that.
fn print_peak(rt: &HostRuntime) -> io::Result<()> {
    let status = fs::read_to_string(rt, "/proc/self/status")?;
    println!(rt; "peak memory {}", peak_of(&status))
}

/// The least times of `rounds` rounds.
fn least_of(rt: &HostRuntime, words: u32, rounds: u64) -> Result<Round, Fault> {
    let mut least = Round::NEVER;
    for _ in 0..rounds {
        least = least.least(Round::run(rt, words)?);
    }
    Ok(least)
}

/// Measures an image of `words` words; with rounds it prints their least times.
pub(crate) fn run(rt: &HostRuntime, words: u64, rounds: Option<u64>) -> Result<(), Fault> {
    let words = u32::try_from(words).or(Err(Fault::Is("no module has so many words")))?;
    let least = least_of(rt, words, rounds.unwrap_or(1))?;
    println!(rt; "{words} words written and read back")?;
    if rounds.is_some() {
        least.print(rt, words)?;
        print_peak(rt)?;
    }
    Ok(())
}
