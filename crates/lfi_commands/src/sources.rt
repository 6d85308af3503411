//! What is known of the connections of a load, beside its report.

ghost use Rattle.std.specs.Prelude.{◌≡◌, get_or, map, None, option_map, slice_get};

use lfi_loader::ClientFate;
use lfi_module::CONNECTIONS;
use std::io::ErrorKind;

/// What is known of the connections of a load, beside its report.
#[derive(Clone, Copy)]
pub(crate) struct Sources<'a> {
    /// How many connections there are, 1 to 8.
    pub(crate) count: usize,
    /// The paths of their streams, by their numbers, where they have any.
    pub(crate) paths: &'a [&'a str],
    /// What became of their clients, by their numbers, where they have any.
    pub(crate) clients: &'a [ClientFate],
    /// The kinds of the errors of reads, by their numbers, where one failed.
    pub(crate) kinds: [Option<ErrorKind>; CONNECTIONS],
}

/// The path of a connection's stream, where it has one.
pub(crate) fn path_at<'a>(paths: &[&'a str], number: usize) -> Option<&'a str>
    ensures { slice_get (map (λ path. path.now) paths.now) number ≡ option_map (λ path. path.now) result }
{
    if number < paths.len() {
        Some(paths[number])
    } else {
        None
    }
}

/// What became of a connection's client, where it has one.
pub(crate) fn client_at(clients: &[ClientFate], number: usize) -> Option<ClientFate>
    ensures { slice_get clients.now number ≡ result }
{
    if number < clients.len() {
        Some(clients[number])
    } else {
        None
    }
}
