//! What the bytes of a connection bring.

ghost use Rattle.std.specs.Prelude.{◌≡◌};
ghost use Rattle.lfi_connection.specs.Events.{Continues, coming_after};

use crate::due_page::DuePage;
use lfi_model::Reason;
use lfi_module::{Extent, ModuleNumber};

/// What the bytes that a step used have brought.
#[derive(Clone, Copy)]
pub enum Event {
    /// Nothing that a host has to do.
    Nothing,
    /// This module opens: how many words it has, where it is entered, its profile and the size of its pages.
    Open {
        module: ModuleNumber,
        extent: Extent,
    },
    /// The header of this page, which is due: its payload follows.
    Begin(DuePage),
    /// The bytes used are code: they follow those that came of this page before. Where it ended, they are its last.
    Code {
        page: DuePage,
        ended: bool,
    },
    /// A message of this module that is passed over.
    Stray {
        module: ModuleNumber,
    },
    /// This module, with this extent, ended when `pages` of its pages had come.
    End {
        module: ModuleNumber,
        extent: Extent,
        pages: u32,
        reason: Reason,
    },
}

impl Event {
    /// Which page is coming after this event of `count` bytes, where this one was before.
    pub fn coming_after(&self, count: usize, coming: Option<DuePage>) -> Option<DuePage>
        requires { Continues self.now coming count }
        ensures { result ≡ coming_after self.now count coming }
    {
        match *self {
            Event::Begin(page) => Some(page),
            Event::Code { ended: true, .. } => None,
            Event::Code { page, ended: false } => Some(DuePage {
                come: page.come + count as u32,
                ..page
            }),
            _ => coming,
        }
    }
}
