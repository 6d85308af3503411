//! A stage, asked for again where it was refused, and one that is settled without memory: checks/refused_growth refuses each allocation
//! in turn, or all from it on.

use crate::build::Sent::{Close, Open, Pages};
use crate::build::{Sent, text_of};
use crate::inputs::Pieces;
use crate::reports::turned::{pair, receive_all, settled};
use lfi_model::Summary;
use lfi_receive::Input;
use lfi_stage::Stage;
use std::alloc::{AllocError, Global};
use std::sync::Wait;
use std::test::Fail;

/// Makes a stage of two receivers and two verifiers.
fn make(alloc: Global) -> Result<(), AllocError> {
    Stage::new(alloc, 2, 2)?;
    Ok(())
}

#[test]
fn a_refused_stage_is_made_again(rt: HostRuntime) -> Result<(), Fail> {
    if make(rt.alloc()).is_ok() {
        println!(rt; "made at once")?;
    } else {
        make(rt.alloc())?;
        println!(rt; "made again")?;
    }
    Ok(())
}

/// Modules of 300 pages: more items than a receiver's part of the intake has room for before it grows.
const LONG: [Sent; 3] = [Open(5, 307_200), Pages(5, 300), Close(5)];

const OTHER: [Sent; 3] = [Open(6, 307_200), Pages(6, 300), Close(6)];

/// Turns after which a receiver has put 256 items: as many as its part has room for before it grows.
const FEW: usize = 767;

/// More turns than its text takes.
const MANY: usize = 10_000;

/// What is told of them where each receiver has put what the intake took, nobody has taken any, and all is settled.
fn settled_alone<S: Wait + AllocGlobal>(rt: &S) -> Result<Summary, AllocError> {
    let mut stage = pair(rt.alloc())?;
    let (long, other) = (text_of(rt.alloc(), &LONG)?, text_of(rt.alloc(), &OTHER)?);
    let mut first = Input::new(rt.alloc(), Pieces::of(long.as_slice(), 4096))?;
    let mut second = Input::new(rt.alloc(), Pieces::of(other.as_slice(), 4096))?;
    receive_all(&mut stage, 0, &mut first, FEW);
    receive_all(&mut stage, 1, &mut second, FEW);
    receive_all(&mut stage, 0, &mut first, MANY);
    receive_all(&mut stage, 1, &mut second, MANY);
    Ok(settled(rt, stage))
}

#[test]
fn a_stage_is_settled_whose_intake_cannot_grow(rt: HostRuntime) -> Result<(), Fail> {
    match settled_alone(&rt) {
        Ok(summary) => print!(rt; "{}", summary)?,
        Err(_) => println!(rt; "not made")?,
    }
    Ok(())
}
