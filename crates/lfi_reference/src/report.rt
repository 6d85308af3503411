//! The report on several streams.

ghost use Rattle.std.specs.Prelude.{◌≡◌, ℕ, ◌<◌, ◌≤◌, ◌^◌, ◌-◌, None, IfOk, length, map, take, get_or, min, sum_by};
ghost use Rattle.lfi_module.specs.Numbers.{module_count};
ghost use Rattle.lfi_reference.specs.Messages.{extent_by};
ghost use Rattle.lfi_reference.specs.Shares.{items_by};
ghost use Rattle.lfi_reference.specs.Reports.{extent_of, owner_of, AreMade, IsReported, AreReported};

use crate::connection::{Connection, connection_of};
use crate::load::{Loaded, load_module};
use crate::message::PlainExtent;
use crate::share::PlainItem;
use lfi_frame::FrameFault;
use lfi_model::{EndCause, Outcome, Summary};
use lfi_module::{CONNECTIONS, ModuleNumber, Profile};
use std::alloc::{AllocError, Global};

/// A whole stream: its bytes, what ended it, and which of the 16 modules are claimed for it.
#[derive(Drop)]
pub struct PlainStream {
    pub bytes: Vec<u8>,
    pub cause: EndCause,
    pub claimed: [bool; ModuleNumber::COUNT],
}

/// What was made of several streams.
#[derive(Drop)]
pub struct PlainReport {
    /// What each stream made.
    pub connections: Vec<Connection>,
    /// What became of each of the 16 modules.
    pub modules: Vec<Loaded>,
    /// The strays of all streams, or the greatest `u64` where there are more.
    pub strays: u64,
}

impl PlainReport {
    /// What is told of it to users.
    pub fn summary(&self) -> Summary
        requires modules { length self.now.modules.items ≡ module_count }
        requires connections { length self.now.connections.items ≤ 8 }
        ensures outcomes { result.outcomes ≡ map (λ loaded. loaded.outcome) self.now.modules.items }
        ensures faults { take (length self.now.connections.items) result.faults ≡ map (λ made. made.fault) self.now.connections.items }
        ensures no_others { (c : ℕ) → length self.now.connections.items ≤ c → get_or result.faults c None ≡ None }
        ensures strays { result.strays ≡ self.now.strays }
    {
        Summary {
            outcomes: outcomes_of(self.modules.as_slice()),
            faults: faults_of(self.connections.as_slice()),
            strays: self.strays,
        }
    }
}

/// The modules' outcomes, by their numbers.
fn outcomes_of(modules: &[Loaded]) -> [Outcome; ModuleNumber::COUNT]
    requires { length modules.now ≡ module_count }
    ensures { result ≡ map (λ loaded. loaded.outcome) modules.now }
{
    let mut outcomes = [Outcome::Unused; ModuleNumber::COUNT];
    for (number, loaded) in modules.iter().enumerate() {
        outcomes[number] = loaded.outcome;
    }
    outcomes
}

/// The connections' faults, by their numbers.
fn faults_of(connections: &[Connection]) -> [Option<FrameFault>; CONNECTIONS]
    requires { length connections.now ≤ 8 }
    ensures told { take (length connections.now) result ≡ map (λ made. made.fault) connections.now }
    ensures no_others { (c : ℕ) → length connections.now ≤ c → get_or result c None ≡ None }
{
    let mut faults = [None; CONNECTIONS];
    for (number, made) in connections.iter().enumerate() {
        faults[number] = made.fault;
    }
    faults
}

/// The extent of the module with these items; that of no words where there are none.
pub fn extent_of(items: &[PlainItem]) -> PlainExtent
    ensures { extent_by result ≡ extent_of (items_by items.now) }
{
    match items {
        [first, ..] => first.extent,
        [] => PlainExtent {
            words: 0,
            entry: 0,
            profile: Profile::One,
            large: false,
        },
    }
}

/// The first stream for which a module is claimed.
pub fn owner(streams: &[PlainStream], m: u16) -> Option<usize>
    requires { m < module_count }
    ensures { result ≡ owner_of streams.now m }
{
    streams.iter().position(|stream| stream.claimed[m as usize])
}

/// What each stream makes.
///
/// # Errors
///
/// Where memory was refused.
pub fn connections(alloc: Global, streams: &[PlainStream]) -> Result<Vec<Connection>, AllocError>
    ensures { IfOk result (λ made. AreMade streams.now made.items) }
{
    let mut made = Vec::new(alloc);
    for stream in streams {
        let connection = connection_of(
            alloc,
            stream.bytes.as_slice(),
            stream.cause,
            &stream.claimed,
        )?;
        made.push(connection)?;
    }
    Ok(made)
}

/// What becomes of a module, which belongs to the first stream for which it is claimed.
fn report_module(
    alloc: Global,
    streams: &[PlainStream],
    made: &[Connection],
    m: u16,
) -> Result<Loaded, AllocError>
    requires below { m < module_count }
    requires made { AreMade streams.now made.now }
    ensures { IfOk result (λ loaded. IsReported streams.now made.now m loaded) }
{
    let Some(place) = owner(streams, m) else {
        return Ok(Loaded {
            outcome: Outcome::Unused,
            placed: Vec::new(alloc),
        });
    };
    let connection = &made[place];
    let list = &connection.items[m as usize];
    let items = list.as_slice();
    let loaded = load_module(alloc, extent_of(items), items)?;
    Ok(loaded)
}

/// The strays of all connections, or the greatest `u64` where there are more.
pub fn strays_of(made: &[Connection]) -> u64
    ensures { result ≡ min (sum_by (λ connection. connection.strays) made.now) (2 ^ 64 - 1) }
{
    let mut strays = 0u64;
    for connection in made {
        let sum = u128::from(strays).saturating_add(connection.strays);
        strays = sum.min(u128::from(u64::MAX)) as u64;
    }
    strays
}

/// The report on these streams.
///
/// # Errors
///
/// Where memory was refused.
pub fn report_on(alloc: Global, streams: &[PlainStream]) -> Result<PlainReport, AllocError>
    ensures connections { IfOk result (λ report. AreMade streams.now report.connections.items) }
    ensures modules { IfOk result (λ report. AreReported streams.now report.connections.items 0 report.modules.items) }
    ensures one_each { IfOk result (λ report. length report.connections.items ≡ length streams.now) }
    ensures all { IfOk result (λ report. length report.modules.items ≡ module_count) }
    ensures strays { IfOk result (λ report.
        report.strays ≡ min (sum_by (λ connection. connection.strays) report.connections.items) (2 ^ 64 - 1)) }
{
    let connections = connections(alloc, streams)?;
    let mut modules = Vec::new(alloc);
    for m in 0..16u16 {
        modules.push(report_module(alloc, streams, connections.as_slice(), m)?)?;
    }
    let strays = strays_of(connections.as_slice());
    Ok(PlainReport {
        connections,
        modules,
        strays,
    })
}
