//! What receivers' threads tell of refused modules while a stage runs.

ghost use Rattle.lfi_receive.specs.Receivers.{IsFinished};
ghost use Rattle.lfi_stage_model.specs.Parts.{IsReceiver};
ghost use Rattle.lfi_thread_loops.specs.inner.Hearing.{IsAsBefore};

use crate::promises::PartId;
use lfi_board::Phase;
use lfi_module::ModuleNumber;
use lfi_receive::Receiver;

/// Where receivers' threads tell that they have seen a module refused. What is put and placed never
/// depends on it.
pub trait Notices {
    /// A receiver's thread has seen for the first time that this module is refused. Each receiver's
    /// thread calls it at most once a module, while others may call it too.
    fn refused(&self, module: ModuleNumber);
}

/// It tells nothing.
#[derive(Clone, Copy)]
pub struct NoNotices;

impl Notices for NoNotices {
    fn refused(&self, _module: ModuleNumber) {}
}

/// The modules of which a receiver's thread has told, by their numbers.
#[derive(Drop)]
pub(crate) struct SeenRefused {
    modules: [bool; ModuleNumber::COUNT],
}

impl SeenRefused {
    pub(crate) fn new() -> SeenRefused {
        SeenRefused {
            modules: [false; ModuleNumber::COUNT],
        }
    }

    /// Looks at one module, unless it was told of before.
    fn look_at<N: Notices>(
        &mut self,
        part: PartId<'_>,
        receiver: &mut Receiver,
        notices: &N,
        module: ModuleNumber,
    )
        requires is { IsReceiver part.shared.now part.number receiver.old }
        ensures is { IsReceiver part.entry.shared.now part.entry.number receiver.new }
        ensures before { IsAsBefore receiver.old receiver.new }
        ensures finished { IsFinished receiver.old → IsFinished receiver.new }
    {
        let number = module.index();
        if self.modules[number] {
            return;
        }
        if receiver.look(&part.shared.board, module) == Phase::Refused {
            self.modules[number] = true;
            notices.refused(module);
        }
    }

    /// Looks at all modules, and tells of each that is refused, once.
    pub(crate) fn look<N: Notices>(
        &mut self,
        part: PartId<'_>,
        receiver: &mut Receiver,
        notices: &N,
    )
        requires is { IsReceiver part.shared.now part.number receiver.old }
        ensures is { IsReceiver part.entry.shared.now part.entry.number receiver.new }
        ensures before { IsAsBefore receiver.old receiver.new }
        ensures finished { IsFinished receiver.old → IsFinished receiver.new }
    {
        for number in 0..ModuleNumber::COUNT {
            self.look_at(part, receiver, notices, ModuleNumber::at(number));
        }
    }
}
