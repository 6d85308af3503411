//! Calls that take memory, asked again where it was refused: checks/refused_growth refuses each allocation in turn.

use lfi_board::Board;
use lfi_image::Builder;
use lfi_model::{Item, Judged};
use lfi_module::{Extent, ModuleNumber, PageSize, Profile, WordCount};
use lfi_queues::{Intake, Lane};
use page_buf::{OpenPage, Pool, PoolMember};
use std::alloc::{AllocError, Global};

/// What takes memory to be made.
#[derive(Clone, Copy)]
enum Made {
    Board,
    Intake,
    Lane,
    Pool,
    Member,
    Page(PageSize),
    /// A builder for the most words.
    Builder,
}

/// Each of them, in the order in which they are made.
const ALL: [Made; 8] = [
    Made::Board,
    Made::Intake,
    Made::Lane,
    Made::Pool,
    Made::Member,
    Made::Page(PageSize::SMALL),
    Made::Page(PageSize::LARGE),
    Made::Builder,
];

/// Whether it was made. It is dropped here.
fn is_there<T: Drop>(made: Result<T, AllocError>) -> bool {
    made.is_ok()
}

/// Whether there is memory for it.
fn is_made(alloc: Global, made: Made) -> bool {
    match made {
        Made::Board => is_there(Board::new(alloc, 2, 1)),
        Made::Intake => is_there(Intake::<Item>::new(alloc, 2, 2)),
        Made::Lane => is_there(Lane::<Judged>::new(alloc, 2, 1)),
        Made::Pool => is_there(Pool::new(alloc, 2)),
        Made::Member => is_there(PoolMember::new(alloc)),
        Made::Page(size) => is_there(OpenPage::new(alloc, size)),
        Made::Builder => {
            let extent = Extent::of(WordCount::MOST, 0, Profile::One, PageSize::SMALL);
            is_there(Builder::new(alloc, extent, ModuleNumber::at(0)))
        }
    }
}

#[test]
fn what_is_refused_is_made_again(rt: HostRuntime) {
    let mut refused = 0u32;
    let mut made = true;
    for one in ALL.iter() {
        if !is_made(rt.alloc(), *one) {
            refused = refused.saturating_add(1);
            made = is_made(rt.alloc(), *one) && made;
        }
    }
    assert!(rt; made);
    let told = if refused > 0 {
        "made again"
    } else {
        "made at once"
    };
    println!(rt; "{told}").expect(&rt, "not told");
}
