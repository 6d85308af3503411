//! The runtime of the tests, and images of words.

ghost use Rattle.std.specs.Prelude.{⊤, ◌≡◌, IfOk};

use a64_semantics::Registers;
use lfi_image::{Builder, CompleteImage, JudgedPage};
use lfi_machine::{
    Answer, DataFault, Halt, Machine, Runtime, SlotMemory, StopCause, start_registers,
};
use lfi_module::{Extent, ModuleNumber, PageSize, Profile, WordCount};
use page_buf::SealedPage;
use std::alloc::{AllocError, Global};
use std::test::Fail;

/// Ends at entry 0 with the low byte of x0, and answers every other with 2^64 - 1 in x0.
#[derive(Drop)]
pub struct Host;

impl Runtime for Host {
    ghost answers = { λ _ _ _ _ _ _ _. ⊤ };

    fn call(&mut self, entry: u32, registers: &Registers, _slot: &mut SlotMemory) -> Answer {
        if entry == 0 {
            return Answer::End((registers.x[0] % 256) as u8);
        }
        let mut next = *registers;
        next.x[0] = u64::MAX;
        Answer::Resume(next)
    }
}

/// Answers registers with x22 at 2^32, which aren't lawful.
#[derive(Drop)]
pub struct Wide;

impl Runtime for Wide {
    ghost answers = { λ _ _ _ _ _ _ _. ⊤ };

    fn call(&mut self, _entry: u32, registers: &Registers, _slot: &mut SlotMemory) -> Answer {
        let mut next = *registers;
        next.x[22] = 1 << 32;
        Answer::Resume(next)
    }
}

/// Writes a byte in the table, in the code, in the data and above the slot, and goes on.
#[derive(Drop)]
pub struct Writer {
    /// What each write answered.
    pub answers: [Result<(), DataFault>; 4],
}

impl Runtime for Writer {
    ghost answers = { λ _ _ _ _ _ _ _. ⊤ };

    fn call(&mut self, _entry: u32, registers: &Registers, slot: &mut SlotMemory) -> Answer {
        self.answers = [
            slot.write(0x1_0000_0000, 7),
            slot.write(0x1_0001_0000, 7),
            slot.write(0x1_FFFF_FFF0, 7),
            slot.write(0x2_0000_0000, 7),
        ];
        Answer::Resume(*registers)
    }
}

/// The image of these words in slot 0 from word 0.
pub fn image(alloc: Global, words: &[u32]) -> Result<CompleteImage, Fail> {
    image_in(alloc, ModuleNumber::at(0), 0, words)
}

/// The image of these words in a slot and from a word.
pub fn image_in(
    alloc: Global,
    slot: ModuleNumber,
    entry: u32,
    words: &[u32],
) -> Result<CompleteImage, Fail> {
    image_by(alloc, slot, entry, words, Profile::One)
}

/// The same by a profile.
pub fn image_by(
    alloc: Global,
    slot: ModuleNumber,
    entry: u32,
    words: &[u32],
    profile: Profile,
) -> Result<CompleteImage, Fail> {
    let Some(extent) = extent_of(words.len() as u64, entry, profile) else {
        return Err(Fail::from("no module has so many words, or the entry is none of them"));
    };
    let mut builder = Builder::new(alloc, extent, slot)?;
    for words in words.chunks(1024) {
        append(alloc, &mut builder, words)?;
    }
    match builder.finish() {
        Ok(image) => Ok(image),
        Err(_) => Err(Fail::from("words are missing")),
    }
}

/// The extent of a module of `count` words.
fn extent_of(count: u64, entry: u32, profile: Profile) -> Option<Extent> {
    let count = WordCount::new(u32::try_from(count).ok()?)?;
    Extent::new(count, entry, profile, PageSize::SMALL)
}

/// The bytes of these words.
fn code_of(alloc: Global, words: &[u32]) -> Result<Vec<u8>, AllocError> {
    let mut code = Vec::new(alloc);
    for word in words {
        code.extend_from_slice(&word.to_le_bytes())?;
    }
    Ok(code)
}

/// The page of these words, at most a page of code.
fn page_of(alloc: Global, size: PageSize, words: &[u32]) -> Result<SealedPage, Fail>
    ensures { IfOk result (λ page. page.size ≡ size) }
{
    let bytes = code_of(alloc, words)?;
    if bytes.is_empty() || bytes.len() > size.bytes() as usize || bytes.len() % 4 != 0 {
        return Err(Fail::from("the code is no page"));
    }
    Ok(SealedPage::of(alloc, size, &bytes)?)
}

/// Appends the page of these words.
fn append(alloc: Global, builder: &mut Builder, words: &[u32]) -> Result<(), Fail> {
    let page = page_of(alloc, builder.extent().pages(), words)?;
    if page.len_words() != builder.due() as usize {
        return Err(Fail::from("the page has not the words due"));
    }
    let page = JudgedPage::judge(page, builder.placed(), builder.extent());
    if builder.append(page).is_err() {
        return Err(Fail::from("the code breaks a rule"));
    }
    Ok(())
}

/// The registers with another value in one: 31 is sp, 32 pc and 33 the flags.
pub fn with(registers: &Registers, place: usize, value: u64) -> Registers {
    let mut next = *registers;
    match place {
        31 => next.sp = value,
        32 => next.pc = value,
        33 => next.nzcv = (value % 256) as u8,
        _ => next.x[place % 31] = value,
    }
    next
}

/// The image of these words in slot 0, by a profile, and the registers of its start but for these, by their places and values.
pub fn start(
    alloc: Global,
    profile: Profile,
    words: &[u32],
    changes: &[(usize, u64)],
) -> Result<(CompleteImage, Registers), Fail> {
    let image = image_by(alloc, ModuleNumber::at(0), 0, words, profile)?;
    let mut registers = start_registers(&image);
    for (place, value) in changes {
        registers = with(&registers, *place, *value);
    }
    Ok((image, registers))
}

/// A machine that is started so.
pub fn started(
    alloc: Global,
    profile: Profile,
    words: &[u32],
    changes: &[(usize, u64)],
) -> Result<Machine, Fail> {
    let (image, registers) = start(alloc, profile, words, changes)?;
    match Machine::new(alloc, image, registers) {
        Ok(machine) => Ok(machine),
        Err(_) => Err(Fail::from("the machine was refused")),
    }
}

/// What a run came to: how it halted, after how many steps, and the registers then.
#[derive(Clone, Copy)]
pub struct Outcome {
    pub halt: Halt,
    pub count: u64,
    pub after: Registers,
}

/// Runs a machine for at most `steps` steps.
pub fn run(machine: &mut Machine, steps: u64) -> Outcome {
    let (halt, count) = machine.run(steps, &mut Host);
    let after = *machine.registers();
    Outcome { halt, count, after }
}

/// Runs an image from these registers.
pub fn run_image(
    alloc: Global,
    image: CompleteImage,
    registers: Registers,
    steps: u64,
) -> Result<Outcome, Fail> {
    match Machine::new(alloc, image, registers) {
        Ok(mut machine) => Ok(run(&mut machine, steps)),
        Err(_) => Err(Fail::from("the machine was refused")),
    }
}

/// Runs a machine that is started so.
pub fn ran(
    alloc: Global,
    profile: Profile,
    words: &[u32],
    changes: &[(usize, u64)],
    steps: u64,
) -> Result<Outcome, Fail> {
    let (image, registers) = start(alloc, profile, words, changes)?;
    run_image(alloc, image, registers, steps)
}

/// The address at which an access through x18, which holds this, is denied in a module of one word, if it is.
pub fn denied(alloc: Global, profile: Profile, word: u32, x18: u64) -> Result<Option<u64>, Fail> {
    let ran = ran(alloc, profile, &[word], &[(18, x18)], 1)?;
    match (ran.halt, ran.count) {
        (Halt::StepsUsed, 1) => Ok(None),
        (Halt::Stopped(StopCause::NoAccess(at)), 0) => Ok(Some(at)),
        _ => Err(Fail::from("the access is neither done nor denied")),
    }
}
