//! The register: settings, replicas and clients in fixed tables.
ghost use Rattle.std.specs.Prelude.{◌≡◌};

use client::client::{Client, Phase};
use replica::row::Row;
use settings::checked::Checked;
use settings::limits::{CLIENTS_MAX, REPLICAS_MAX};

/// Settings, replicas and clients. Tens of kilobytes: handed on by reference.
#[derive(Drop)]
pub struct Register {
    pub(crate) settings: Checked,
    /// the writer at 0, reader c at c; the first R + 1 are in use
    // Here, with no padding before or behind it: with padding the whole table is cleared and moved once more when a
    // register is made.
    pub(crate) clients: [Client; CLIENTS_MAX as usize],
    /// what each replica holds; the first S are in use
    pub(crate) rows: [Row; REPLICAS_MAX as usize],
    /// how many replicas are out
    pub(crate) outs: u8,
    /// which replicas are out; the first S are in use
    // Beside the rows, since a row alone is lent to the delivery step.
    pub(crate) out: [bool; REPLICAS_MAX as usize],
}

// What can be seen of a register without a change.
impl Register {
    ghost use Rattle.register.specs.Register.{settings_of, ShowsPhase, is_out, outs_of};

    /// The settings that it was opened with.
    pub fn settings(&self) -> Checked
        ensures { result ≡ settings_of self.now }
    {
        self.settings
    }

    /// The phase of the writer, 0, or of reader 1 to R; none for any other number.
    pub fn phase(&self, client: u32) -> Option<Phase>
        ensures { ShowsPhase self.now client result }
    {
        if client > u32::from(self.settings.readers) {
            return None;
        }
        Some(self.clients[client as usize].phase)
    }

    /// Is the replica withdrawn, as the table has it? No for a number past the table.
    pub fn is_out(&self, replica: u32) -> bool
        ensures { result ≡ is_out self.now replica }
    {
        self.out.get(replica as usize).copied().unwrap_or(false)
    }

    /// How many replicas are withdrawn.
    pub fn out_count(&self) -> u8
        ensures { result ≡ outs_of self.now }
    {
        self.outs
    }
}
