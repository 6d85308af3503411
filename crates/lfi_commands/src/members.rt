//! Members of the object of a load that have no text of a user's.

ghost use Rattle.std.specs.Prelude.{Some};
ghost use Rattle.lfi_commands.specs.Objects as spec;

use crate::clients::cause_told;
use crate::explained::first_kind;
use lfi_file_commands::{DeviceCause, FaultMembers, FileKind};
use lfi_frame::FrameFault;
use lfi_loader::{Absence, ClientFate};
use lfi_model::Outcome;
use lfi_receive::MessageStart;
use std::fmt;
use std::io::ErrorKind;

/// What became of a module.
#[derive(Clone, Copy)]
struct OutcomeValue(Outcome);

impl fmt::Display for OutcomeValue {
    ghost output = { λ outcome. Some (spec.outcome_value outcome.0) };

    fn fmt<W: fmt::Write>(&self, f: &mut fmt::Formatter<W>) -> fmt::Result {
        match self.0 {
            Outcome::Unused => f.write_str("\"unused\""),
            Outcome::Complete { words } => write!(f, "\"complete\",\"words\":{words}"),
            Outcome::Refused(fault) => write!(f, "\"refused\",{}", FaultMembers(fault)),
            Outcome::Incomplete { pages, of } => {
                write!(f, "\"incomplete\",\"pages\":{pages},\"of\":{of}")
            }
            Outcome::Lost(fault) => {
                let number = fault.number();
                write!(f, "\"lost\",\"fault\":{number}")
            }
            Outcome::PageFault(index) => write!(f, "\"page fault\",\"index\":{index}"),
            Outcome::NoMemory => f.write_str("\"no memory\""),
        }
    }
}

/// What stands first in the object of a module.
#[derive(Clone, Copy)]
pub(crate) struct OutcomeMembers {
    /// The module's number.
    pub(crate) number: usize,
    pub(crate) outcome: Outcome,
}

impl fmt::Display for OutcomeMembers {
    ghost output = { λ o. Some (spec.outcome_members o.number o.outcome) };

    fn fmt<W: fmt::Write>(&self, f: &mut fmt::Formatter<W>) -> fmt::Result {
        let number = self.number;
        let outcome = OutcomeValue(self.outcome);
        write!(f, "{{\"module\":{number},\"outcome\":{outcome}")
    }
}

/// The connection that has claimed a module.
#[derive(Clone, Copy)]
pub(crate) struct HolderMember(pub(crate) Option<usize>);

impl fmt::Display for HolderMember {
    ghost output = { λ holder. Some (spec.holder_member holder.0) };

    fn fmt<W: fmt::Write>(&self, f: &mut fmt::Formatter<W>) -> fmt::Result {
        match self.0 {
            Some(connection) => write!(f, ",\"connection\":{connection}"),
            None => Ok(()),
        }
    }
}

/// Why something failed, under its key.
#[derive(Clone, Copy)]
struct CauseMember<'a> {
    key: &'a str,
    cause: DeviceCause,
}

impl fmt::Display for CauseMember<'_> {
    ghost output = { λ member. Some (spec.cause_member member.key.now member.cause) };

    fn fmt<W: fmt::Write>(&self, f: &mut fmt::Formatter<W>) -> fmt::Result {
        match self.cause {
            DeviceCause::Other => Ok(()),
            cause => write!(f, ",\"{}\":\"{}\"", self.key, cause.text()),
        }
    }
}

/// Why a connection has no client.
#[derive(Clone, Copy)]
struct AbsenceMembers(Absence);

impl fmt::Display for AbsenceMembers {
    ghost output = { λ why. Some (spec.absence_members why.0) };

    fn fmt<W: fmt::Write>(&self, f: &mut fmt::Formatter<W>) -> fmt::Result {
        match self.0 {
            Absence::NotCome => f.write_str(",\"client\":\"not come\""),
            Absence::NotTaken(kind) => {
                let cause = CauseMember {
                    key: "client_error",
                    cause: DeviceCause::of_kind(kind),
                };
                write!(f, ",\"client\":\"not taken\"{cause}")
            }
        }
    }
}

/// What became of a client.
#[derive(Clone, Copy)]
struct ClientMembers(ClientFate);

impl fmt::Display for ClientMembers {
    ghost output = { λ fate. Some (spec.client_members fate.0) };

    fn fmt<W: fmt::Write>(&self, f: &mut fmt::Formatter<W>) -> fmt::Result {
        match self.0 {
            ClientFate::Heard => f.write_str(",\"client\":\"heard\""),
            ClientFate::CutOff => f.write_str(",\"client\":\"cut off\""),
            ClientFate::Absent(why) => write!(f, "{}", AbsenceMembers(why)),
        }
    }
}

/// The same, where there are clients.
#[derive(Clone, Copy)]
struct ClientMember(Option<ClientFate>);

impl fmt::Display for ClientMember {
    ghost output = { λ client. Some (spec.client_member client.0) };

    fn fmt<W: fmt::Write>(&self, f: &mut fmt::Formatter<W>) -> fmt::Result {
        match self.0 {
            Some(fate) => write!(f, "{}", ClientMembers(fate)),
            None => Ok(()),
        }
    }
}

/// What begins as no stream, where that is told.
#[derive(Clone, Copy)]
struct FileMember(Option<FileKind>);

impl fmt::Display for FileMember {
    ghost output = { λ file. Some (spec.file_member file.0) };

    fn fmt<W: fmt::Write>(&self, f: &mut fmt::Formatter<W>) -> fmt::Result {
        match self.0 {
            None | Some(FileKind::Stream) => Ok(()),
            Some(FileKind::Plain) => {
                f.write_str(",\"file\":\"no stream; lfiload pack makes one of code\"")
            }
            Some(kind) => write!(f, ",\"file\":\"{}\"", kind.text()),
        }
    }
}

/// Why a read failed, by the kind of its error.
#[derive(Clone, Copy)]
struct ReadMember {
    fault: FrameFault,
    kind: Option<ErrorKind>,
}

impl fmt::Display for ReadMember {
    ghost output = { λ read. Some (spec.read_member read.fault read.kind) };

    fn fmt<W: fmt::Write>(&self, f: &mut fmt::Formatter<W>) -> fmt::Result {
        match self.fault {
            FrameFault::ReadFailed => {
                let cause = CauseMember {
                    key: "read_error",
                    cause: cause_told(self.kind),
                };
                write!(f, "{cause}")
            }
            _ => Ok(()),
        }
    }
}

/// The fault of a stream.
#[derive(Clone, Copy)]
struct StreamMembers {
    fault: Option<FrameFault>,
    start: MessageStart,
    kind: Option<ErrorKind>,
}

impl fmt::Display for StreamMembers {
    ghost output = { λ stream. Some (spec.stream_members stream.fault (Some stream.start) stream.kind) };

    fn fmt<W: fmt::Write>(&self, f: &mut fmt::Formatter<W>) -> fmt::Result {
        let kind = self.kind;
        match self.fault {
            Some(fault) => {
                let number = fault.number();
                let byte = self.start.byte;
                let file = FileMember(first_kind(fault, &self.start));
                let read = ReadMember { fault, kind };
                write!(
                    f,
                    ",\"fault\":{number},\"reason\":\"{fault}\",\"byte\":{byte}{file}{read}"
                )
            }
            None => Ok(()),
        }
    }
}

/// What is told of a connection behind its path.
#[derive(Clone, Copy)]
pub(crate) struct ConnectionMembers {
    pub(crate) client: Option<ClientFate>,
    pub(crate) strays: u64,
    pub(crate) fault: Option<FrameFault>,
    /// Where the message begins at which it ended.
    pub(crate) start: MessageStart,
    /// The kind of the error of a read, where one failed.
    pub(crate) kind: Option<ErrorKind>,
}

impl fmt::Display for ConnectionMembers {
    ghost output = { λ c. Some (spec.connection_members c.client c.strays c.fault (Some c.start) c.kind) };

    fn fmt<W: fmt::Write>(&self, f: &mut fmt::Formatter<W>) -> fmt::Result {
        let client = ClientMember(self.client);
        let strays = self.strays;
        let stream = StreamMembers {
            fault: self.fault,
            start: self.start,
            kind: self.kind,
        };
        write!(f, "{client},\"strays\":{strays}{stream}")
    }
}
